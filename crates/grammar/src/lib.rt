// Weighted simple grammars: words, the inputs they take, and the makes of grammars.
#![tactic(auto)]

ghost use Rattle.std.specs.Prelude.{◌≡◌, length, is_some, slice_index_or};
ghost use Rattle.grammar.specs.Meaning.{Meaning, WellFormed, word_of, tally_of};

use tally::Tally;

mod derivation;
mod list_grammar;
mod places;
mod records;
#[cfg(test)]
mod tests;
mod too_long;
mod twin;
mod word_stack;

pub use derivation::{MAX_INPUT, derive};
pub use list_grammar::ListGrammar;
pub use places::{PLACES, index_of};
pub use records::{RuleRecord, RuleWord};
pub use too_long::InputTooLong;
pub use twin::{Twin, raise};
pub use word_stack::WordStack;

// A grammar of any make. It answers five questions, each as a function of its one meaning. The numbers
// for what is not there (0, 255 and the tally zero) are fixed for every make, so there is no Option. So are the symbol
// and the letter, apart: tables and faults have them apart too.
pub trait Grammar {
    type T: Tally;

    // What the grammar means, for ever.
    ghost meaning: { Self → Meaning Self.T };

    // What every make owes: its meaning is well-formed, at every number.
    ghost wellformed: { (g : Self) → WellFormed (meaning g) };

    // How many symbols there are.
    fn count(&self) -> u8
        ensures { result ≡ (meaning self.now).count };

    // Whether there is a rule for the symbol and the letter.
    fn has_rule(&self, symbol: u8, letter: u8) -> bool
        ensures { result ≡ is_some ((meaning self.now).rule symbol letter) };

    // How many symbols the rule's word has; 0 without a rule.
    fn rule_len(&self, symbol: u8, letter: u8) -> u8
        ensures { result ≡ length (word_of ((meaning self.now).rule symbol letter)) };

    // The symbol of the rule's word at a place; 255 beyond its end and without a rule.
    fn rule_symbol(&self, symbol: u8, letter: u8, at: u8) -> u8
        ensures { result ≡ slice_index_or (word_of ((meaning self.now).rule symbol letter)) at 255 };

    // The rule's tally; zero without a rule.
    fn rule_tally(&self, symbol: u8, letter: u8) -> Self::T
        ensures { result ≡ tally_of Self.T.Tally.group.zero ((meaning self.now).rule symbol letter) };
}
