// The rules of a file, with the place of each.
ghost use Rattle.std.specs.Prelude.{◌≡◌, Some, None, MatchOption};

use crate::rule_bytes::RuleBytes;
use grammar::{PLACES, index_of};

// A count of symbols, how many numbers a rule has, and the bytes of the rules. For each symbol and letter
// `places` has one more than where their rule begins in the bytes; 0 without a rule. Places and no slices:
// a slice for each would be 20 KB, to clear and to copy at each file.
#[derive(Drop)]
pub(crate) struct RuleTable<'a> {
    pub(crate) count: u8,
    pub(crate) kinds: u8,
    pub(crate) rules: &'a [u8],
    pub(crate) places: [u16; PLACES],
}

impl<'a> RuleTable<'a> {
    ghost use Rattle.file_grammar.specs.Tabled.{bytes_at};

    // The rule for the symbol and the letter, if there is one. A look-up as a survey's, whose table has ghost
    // fields of its own.
    pub(crate) fn rule(&self, symbol: u8, letter: u8) -> Option<RuleBytes<'a>>
        ensures { MatchOption result (bytes_at self.now symbol letter ≡ None) (λ r. (bytes_at self.now symbol letter ≡ Some r.bytes.now) × (r.kinds ≡ self.now.kinds)) }
    {
        if symbol >= self.count || !letter.is_ascii_uppercase() {
            return None;
        }
        let place = self
            .places
            .get(index_of(symbol, letter))
            .copied()
            .unwrap_or(0);
        let at = usize::from(place).checked_sub(1)?;
        // No bytes beyond the end: what a table means is told for any places.
        Some(RuleBytes {
            bytes: &self.rules[at.min(self.rules.len())..],
            kinds: self.kinds,
        })
    }
}
