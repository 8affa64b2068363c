// The rules of a checked file, one by one, and how words and numbers are shown.
ghost use Rattle.std.specs.Prelude.{◌<◌, length, IfSome};
ghost use Rattle.std.specs.Iterator.{at_most};

use std::fmt;

// A rule: its symbol, its letter, the four bytes of each number, and its word.
#[derive(Clone, Copy)]
pub struct Rule<'a> {
    pub symbol: u8,
    pub letter: u8,
    pub numbers: &'a [u8],
    pub word: &'a [u8],
}

impl<'a> Rule<'a> {
    // How many bytes it has: the three of symbol, letter and length, and those of the numbers and the word.
    pub(crate) fn size(&self) -> usize {
        3usize
            .saturating_add(self.numbers.len())
            .saturating_add(self.word.len())
    }
}

// The first word behind its length, and what follows.
fn split_word(bytes: &[u8]) -> Option<(&[u8], &[u8])>
    ensures { IfSome result (λ p. length p.1.now < length bytes.now) }
{
    let (len, rest) = bytes.split_first()?;
    rest.split_at_checked(usize::from(*len))
}

// The first rule of a file with so many kinds, and what follows.
fn split_rule(bytes: &[u8], kinds: usize) -> Option<(Rule<'_>, &[u8])>
    ensures { IfSome result (λ p. length p.1.now < length bytes.now) }
{
    let [symbol, letter, rest @ ..] = bytes else {
        return None;
    };
    let (numbers, rest) = rest.split_at_checked(kinds.saturating_mul(4))?;
    let (word, rest) = split_word(rest)?;
    let rule = Rule {
        symbol: *symbol,
        letter: *letter,
        numbers,
        word,
    };
    Some((rule, rest))
}

// The rules that lie in the bytes of a file with so many kinds.
#[derive(Drop)]
pub struct Rules<'a> {
    pub bytes: &'a [u8],
    pub kinds: usize,
}

impl<'a> Iterator for Rules<'a> {
    type Item = Rule<'a>;

    ghost remaining = { λ s. at_most (length s.bytes.now) };

    fn next(&mut self) -> Option<Rule<'a>> {
        let (rule, rest) = split_rule(self.bytes, self.kinds)?;
        self.bytes = rest;
        Some(rule)
    }
}

// Symbols by their names run together, a minus sign for none.
#[derive(Clone, Copy)]
pub struct Spelled<'a> {
    pub names: &'a [u8],
    pub word: &'a [u8],
}

impl<'a> fmt::Display for Spelled<'a> {
    fn fmt<W: fmt::Write>(&self, f: &mut fmt::Formatter<W>) -> fmt::Result {
        if self.word.is_empty() {
            return f.write_str("-");
        }
        for symbol in self.word {
            // A checked file has a name for each symbol.
            let name = self
                .names
                .get(usize::from(*symbol))
                .copied()
                .unwrap_or(b'?');
            f.write_char(char::from(name))?;
        }
        Ok(())
    }
}

// Numbers of four bytes, high first, each after a space.
#[derive(Clone, Copy)]
pub struct Numbers<'a>(pub &'a [u8]);

impl<'a> fmt::Display for Numbers<'a> {
    fn fmt<W: fmt::Write>(&self, f: &mut fmt::Formatter<W>) -> fmt::Result {
        let (numbers, _) = self.0.as_chunks::<4>();
        for bytes in numbers {
            let number = u32::from_be_bytes(*bytes);
            write!(f, " {number}")?;
        }
        Ok(())
    }
}
