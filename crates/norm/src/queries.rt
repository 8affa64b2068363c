// What a skeleton tells of symbols and words.
ghost use Rattle.std.specs.Prelude.{◌≡◌, Decides};
ghost use Rattle.norm.specs.Norms.{Earlier};
ghost use Rattle.norm.specs.Measured.{best_at};
ghost use Rattle.norm.specs.Skeletons.{norm_at, letter_at, summed};

use crate::best_rule::{BestRule, NO_RULE};
use crate::skeleton::Skeleton;

impl Skeleton {
    // The best rule of a symbol.
    fn best_rule(&self, symbol: u8) -> BestRule
        ensures { result ≡ best_at self.now.best_rules symbol }
    {
        self.best_rules
            .get(symbol as usize)
            .copied()
            .unwrap_or(NO_RULE)
    }

    // The norm of a symbol; above the limit where there is no such symbol. No Option: norms of any words are
    // added up.
    pub fn norm(&self, symbol: u8) -> u8
        ensures { result ≡ norm_at self.now symbol }
    {
        self.best_rule(symbol).measure
    }

    // The first letter of a symbol's first input; 0, which is no letter and has no rule, where there is no
    // such symbol. No Option: the look-up of the rule tells it.
    pub fn letter(&self, symbol: u8) -> u8
        ensures { result ≡ letter_at self.now symbol }
    {
        self.best_rule(symbol).letter
    }

    // The norm of a word: the sum over its symbols, at most the greatest number.
    pub fn norm_of(&self, word: &[u8]) -> usize
        ensures { result ≡ summed self.now word.now }
    {
        word.iter().fold(
            0usize,
            |sum, symbol| sum.saturating_add(self.norm(*symbol) as usize),
        )
    }

    // Whether the first symbol is earlier than the second: its norm is smaller, or at equal norms
    // its number.
    pub fn earlier(&self, first: u8, second: u8) -> bool
        ensures { Decides result (Earlier (norm_at self.now) first second) }
    {
        (self.norm(first), first) < (self.norm(second), second)
    }
}
