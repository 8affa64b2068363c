// The bytes of one rule, and what follows them.
ghost use Rattle.std.specs.Prelude.{◌≡◌, ◌+◌, ◌*◌, length, take, drop, slice_index, slice_index_or};
ghost use Rattle.grammar.specs.Listed.{capped};
ghost use Rattle.file_grammar.specs.Tabled.{numbers_of, word_of};

// Bytes that begin with a rule of a file with so many kinds.
#[derive(Clone, Copy)]
pub(crate) struct RuleBytes<'a> {
    pub(crate) bytes: &'a [u8],
    pub(crate) kinds: u8,
}

impl<'a> RuleBytes<'a> {
    // The byte at a place; 0 beyond the end. No Option: in a checked file it is there, and what a table means
    // is told for any bytes.
    fn byte(&self, at: usize) -> u8
        ensures { result ≡ slice_index self.now.bytes.now at }
    {
        self.bytes.get(at).copied().unwrap_or(0)
    }

    // Where the length of the word is: behind the symbol, the letter and the numbers.
    fn length_place(&self) -> usize
        ensures { result ≡ 4 * self.now.kinds + 2 }
    {
        4 * usize::from(self.kinds) + 2
    }

    // The bytes from a place on; none beyond the end.
    fn behind(&self, at: usize) -> &'a [u8]
        ensures { result.now ≡ drop at self.now.bytes.now }
    {
        &self.bytes[at.min(self.bytes.len())..]
    }

    // How many bytes the rule has: its symbol, its letter, four for each number, its length and its word.
    pub(crate) fn size(&self) -> u16
        ensures { result ≡ 4 * self.now.kinds + 3 + slice_index self.now.bytes.now (4 * self.now.kinds + 2) }
    {
        4 * u16::from(self.kinds) + 3 + u16::from(self.byte(self.length_place()))
    }

    // What follows the rule.
    pub(crate) fn rest(&self) -> &'a [u8]
        ensures { result.now ≡ drop (4 * self.now.kinds + 3 + slice_index self.now.bytes.now (4 * self.now.kinds + 2)) self.now.bytes.now }
    {
        self.behind(usize::from(self.size()))
    }

    // The number at a place, four bytes, high first; 0 beyond the kinds, as a tally is made of two numbers.
    pub(crate) fn number(&self, at: u8) -> u32
        ensures { result ≡ slice_index (numbers_of self.now.kinds (drop 2 self.now.bytes.now)) at }
    {
        if at >= self.kinds {
            return 0;
        }
        let from = 4 * usize::from(at) + 2;
        // Byte by byte: one that is missing counts as 0 by itself.
        let bytes = [
            self.byte(from),
            self.byte(from + 1),
            self.byte(from + 2),
            self.byte(from + 3),
        ];
        u32::from_be_bytes(bytes)
    }

    // The word, at most four symbols.
    fn word(&self) -> &'a [u8]
        ensures { result.now ≡ word_of self.now.kinds self.now.bytes.now }
    {
        let at = self.length_place();
        let behind = self.behind(at + 1);
        let len = usize::from(self.byte(at).min(4));
        &behind[..len.min(behind.len())]
    }

    // How many symbols the word has.
    pub(crate) fn len(&self) -> u8
        ensures { result ≡ length (capped (word_of self.now.kinds self.now.bytes.now)) }
    {
        self.word().len() as u8
    }

    // The symbol of the word at a place; 255 beyond its end, as the question about a symbol answers.
    pub(crate) fn symbol(&self, at: u8) -> u8
        ensures { result ≡ slice_index_or (capped (word_of self.now.kinds self.now.bytes.now)) at 255 }
    {
        self.word().get(usize::from(at)).copied().unwrap_or(255)
    }
}
