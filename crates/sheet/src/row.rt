ghost use Rattle.std.specs.Prelude.{◌≡◌, take};
ghost use Rattle.norm.specs.Tabled.{held};

use norm::ShortWord;

// The most symbols of a row's word.
pub const MAX_ROW: usize = 64;

// The word of a row.
pub type Row = ShortWord<MAX_ROW>;

// The row of a word: its first 64 symbols, which are all that a row's word has.
pub fn row_of(word: &[u8]) -> Row
    ensures { held result ≡ take 64 word.now }
{
    let word = &word[..word.len().min(MAX_ROW)];
    let mut symbols = [0; MAX_ROW];
    symbols[..word.len()].copy_from_slice(word);
    ShortWord {
        symbols,
        len: word.len() as u8,
    }
}
