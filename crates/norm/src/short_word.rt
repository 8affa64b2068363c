// Words in place.
ghost use Rattle.std.specs.Prelude.{◌≡◌, ◌≤◌, length, slice_index_or};

// The most symbols of a rule's word.
pub const MAX_RULE: u8 = 4;

// A word of at most N symbols, in place: of the symbols the first `len` count.
// No ArrayVec: it is not Copy, and a table of words begins as copies of one.
#[derive(Clone, Copy)]
pub struct ShortWord<const N: usize> {
    pub symbols: [u8; N],
    pub len: u8,
    ghost within: { len ≤ N },
    ghost room: { length symbols ≡ N },
}

impl<const N: usize> ShortWord<N> {
    ghost use Rattle.norm.specs.Tabled.{held};

    // Its symbols.
    pub fn as_slice(&self) -> &[u8]
        ensures { result.now ≡ held self.now }
    {
        // The room cut to its length.
        let symbols = &self.symbols[..];
        &symbols[..self.len as usize]
    }

    // The symbol at a place; 255 beyond the end, as the question about a symbol answers.
    pub fn symbol(&self, at: u8) -> u8
        ensures { result ≡ slice_index_or (held self.now) at 255 }
    {
        self.as_slice().get(at as usize).copied().unwrap_or(255)
    }
}
