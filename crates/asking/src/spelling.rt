// Words as they are written.
ghost use Rattle.std.specs.Prelude.{◌≡◌, ◌≤◌, length, IfOk};
ghost use Rattle.grammar.specs.Twinned.{raised};
ghost use Rattle.asking.specs.Spelling.{symbol_of, plain as plain_names, Spells};

use crate::misspelled::Misspelled;
use grammar::raise;
use std::alloc::{AllocError, Global};

// The symbol of a name. A file has at most 32 names, and a symbol is the place of its name.
fn symbol_of_name(names: &[u8], name: u8) -> Option<u8>
    ensures { length names.now ≤ 32 → result ≡ symbol_of names.now name }
{
    let at = names.iter().position(|x| *x == name)?;
    u8::try_from(at).ok()
}

// The names of a written word; a minus sign alone stands for none.
fn plain(text: &[u8]) -> &[u8]
    ensures { result.now ≡ plain_names text.now }
{
    match text {
        [b'-'] => &[],
        _ => text,
    }
}

// The word that a text spells with the names of a file, or the first place of a byte that is none of them.
pub fn spell(heap: Global, names: &[u8], text: &[u8]) -> Result<Vec<u8>, Misspelled>
    ensures { length names.now ≤ 32 → Spells names.now text.now result }
{
    // A loop: `try_collect` would not tell the place.
    let mut word = Vec::new(heap);
    for (place, name) in plain(text).iter().enumerate() {
        let symbol = symbol_of_name(names, *name).ok_or(Misspelled::NoName(place))?;
        word.push(symbol)?;
    }
    Ok(word)
}

// A word of the second file in the twin: each symbol raised by the count of the first file's.
pub fn raise_word(heap: Global, word: &[u8], by: u8) -> Result<Vec<u8>, AllocError>
    ensures { IfOk result (λ v. v.items ≡ raised by word.now) }
{
    word.iter().map(|symbol| raise(*symbol, by)).collect(heap)
}
