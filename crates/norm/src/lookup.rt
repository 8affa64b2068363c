// Reads from the table of rule words.
ghost use Rattle.std.specs.Prelude.{◌≡◌, ◌≤◌, slice_index_or};
ghost use Rattle.std.specs.Option.{option_map};
ghost use Rattle.norm.specs.Tabled.{held};
ghost use Rattle.norm.specs.Ruled.{rules_of};

use crate::rule_words::RuleWords;
use crate::short_word::ShortWord;
use grammar::index_of;

impl RuleWords {
    // The word of the rule for the symbol and the letter, if there is one.
    pub fn word(&self, symbol: u8, letter: u8) -> Option<ShortWord<4>>
        ensures { option_map held result ≡ rules_of self.now symbol letter }
    {
        if symbol >= self.count || !letter.is_ascii_uppercase() {
            return None;
        }
        self.words.get(index_of(symbol, letter)).copied().flatten()
    }
}
