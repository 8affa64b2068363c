ghost use Rattle.std.specs.Prelude.{◌≡◌, ℕ, ◌<◌, ◌≤◌, length, slice_index};
ghost use Rattle.norm.specs.Words.{body};
ghost use Rattle.norm.specs.Tabled.{stored};

use crate::short_word::ShortWord;
use grammar::PLACES;

// The most symbols of a grammar.
pub const MAX_SYMBOLS: u8 = 32;

// How many places a table by symbols has.
pub(crate) const SYMBOLS: usize = MAX_SYMBOLS as usize;

// The words of a grammar's rules, without the tallies, each at the place of its symbol and its letter.
// Words name only symbols below the count. No table type shared with the rules of a file: the ghost
// fields speak of the words, and what is left to share is one look-up.
#[derive(Drop)]
pub struct RuleWords {
    pub count: u8,
    pub words: [Option<ShortWord<4>>; PLACES],
    ghost few: { count ≤ 32 },
    ghost room: { length words ≡ 832 },
    ghost known: { (A a k : ℕ) → k < length (body (stored count words A a)) → slice_index (body (stored count words A a)) k < count },
}
