// Words and inputs as they are written on a line.
ghost use Rattle.std.specs.Prelude.{◌≡◌, ◌<◌, length};
ghost use Rattle.std.specs.Iterator.{at_most};
ghost use Rattle.std.specs.Option.{option_map};
ghost use Rattle.worked.specs.Reading.{named, cut_at, two_fields, pair_now, first_line, plain_bytes, GivesLine, Spells, Reads};

use crate::query::{Query, QueryError};
use std::alloc::Global;

// The names of the symbols, in their order.
pub(crate) const NAMES: [u8; 7] = *b"bcdefkq";

// The symbol of a name. No TryFrom: a symbol is a number, as its name is.
fn symbol_of(name: u8) -> Option<u8>
    ensures { result ≡ named name }
{
    let at = NAMES.iter().position(|x| *x == name)?;
    Some(at as u8)
}

// The word that the names spell.
fn spell(heap: Global, names: &[u8]) -> Result<Vec<u8>, QueryError>
    ensures { Spells result names.now }
{
    // A loop: `try_collect` would be no shorter, and its proof would speak of the iterator's runs.
    let mut word = Vec::new(heap);
    for name in names {
        word.push(symbol_of(*name).ok_or(QueryError::NoWord)?)?;
    }
    Ok(word)
}

// The bytes before and after the first `byte`. Slices have no `split_once`.
fn cut(bytes: &[u8], byte: u8) -> Option<(&[u8], &[u8])>
    ensures { option_map pair_now result ≡ cut_at byte bytes.now }
{
    let at = bytes.iter().position(|x| *x == byte)?;
    Some((&bytes[..at], &bytes[at + 1..]))
}

// The first line of a text, without its line feed, and what follows.
pub fn next_line(text: &[u8]) -> (&[u8], &[u8])
    ensures value { pair_now result ≡ first_line text.now }
    ensures bound { 0 < length text.now → length result.1.now < length text.now }
{
    cut(text, b'\n').unwrap_or((text, &[]))
}

// The lines of a text. No `split`, which gives a line more behind the last line feed, and no
// `split_inclusive`, which leaves each its line feed.
#[derive(Drop)]
pub struct Lines<'a>(pub &'a [u8]);

impl<'a> Iterator for Lines<'a> {
    type Item = &'a [u8];

    ghost next_gives = { λ s line t. GivesLine s.0.now line t.0.now };

    ghost remaining = { λ s. at_most (length s.0.now) };

    fn next(&mut self) -> Option<&'a [u8]> {
        if self.0.is_empty() {
            return None;
        }
        let (line, rest) = next_line(self.0);
        self.0 = rest;
        Some(line)
    }
}

// The two fields of a line: neither is empty, one space stands between them, and there is no other.
fn fields(line: &[u8]) -> Option<(&[u8], &[u8])>
    ensures { option_map pair_now result ≡ two_fields (cut_at 32 line.now) }
{
    let (word, input) = cut(line, b' ')?;
    if word.is_empty() || input.is_empty() || input.contains(&b' ') {
        return None;
    }
    Some((word, input))
}

// The field's bytes; a minus sign alone stands for none.
fn plain(field: &[u8]) -> &[u8]
    ensures { result.now ≡ plain_bytes field.now }
{
    match field {
        [b'-'] => &[],
        _ => field,
    }
}

// Reads a line.
pub fn read(heap: Global, line: &[u8]) -> Result<Query<'_>, QueryError>
    ensures { Reads result line.now }
{
    let (names, input) = fields(line).ok_or(QueryError::NoFields)?;
    let word = spell(heap, plain(names))?;
    let input = plain(input);
    Ok(Query { word, input })
}
