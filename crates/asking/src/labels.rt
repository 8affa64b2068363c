// What the symbols of a twin are called.
ghost use Rattle.std.specs.Prelude.{◌≡◌, ◌++◌, OnOk};
ghost use Rattle.grammar.specs.Meaning.{Word};

use crate::names::push_name;
use crate::offsets::push_offset;
use std::alloc::AllocError;

// The names of the first file and of the second, and the kinds of both.
#[derive(Clone, Copy)]
pub struct Labels<'a> {
    pub first: &'a [u8],
    pub second: &'a [u8],
    pub kinds: &'a [u8],
}

impl Labels<'_> {
    ghost use Rattle.asking.specs.Texts.{name_text, word_text, row_text};

    // Writes the name of a symbol of the twin.
    fn push_symbol(&self, text: &mut Vec<u8>, symbol: u8) -> Result<(), AllocError>
        ensures { OnOk result (text.new.items ≡ text.old.items ++ name_text self.now symbol) }
    {
        let symbol = usize::from(symbol);
        match self.first.get(symbol) {
            Some(name) => push_name(text, b"1.", *name, self.second),
            None => {
                let own = symbol.saturating_sub(self.first.len());
                let name = self.second.get(own).copied().unwrap_or(0);
                push_name(text, b"2.", name, self.first)
            }
        }
    }

    // Writes a word of the twin, its names run together.
    fn push_word(&self, text: &mut Vec<u8>, word: &[u8]) -> Result<(), AllocError>
        ensures { OnOk result (text.new.items ≡ text.old.items ++ word_text self.now word.now) }
    {
        for symbol in word {
            self.push_symbol(text, *symbol)?;
        }
        Ok(())
    }

    // Writes the line of a row: its symbol, its word, and its offset where that is not zero.
    pub(crate) fn push_row(
        &self,
        text: &mut Vec<u8>,
        symbol: u8,
        word: &[u8],
        numbers: &[u32],
    ) -> Result<(), AllocError>
        ensures { OnOk result (text.new.items ≡ text.old.items ++ row_text self.now symbol word.now numbers.now) }
    {
        self.push_symbol(text, symbol)?;
        text.extend_from_slice(b" = ")?;
        self.push_word(text, word)?;
        push_offset(text, self.kinds, numbers)?;
        text.extend_from_slice(b"\n")
    }
}
