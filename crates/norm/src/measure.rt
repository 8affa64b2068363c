// Measures the norms of symbols, from above, rule by rule.
ghost use Rattle.std.specs.Prelude.{◌≡◌, length};

use crate::best_rule::{BestRule, NO_RULE};
use crate::rule_words::{RuleWords, SYMBOLS};

// The greatest norm that is allowed. Measures are on one scale, less being better: a norm up to
// here, then one value for all that is longer, and one for a symbol of which no input is known.
// No enum: measures are added up, capped and compared, and for that it would need arithmetic of its own.
pub const MAX_NORM: u8 = 64;

pub(crate) const TOO_LONG: u8 = MAX_NORM + 1;

pub(crate) const NO_INPUT: u8 = TOO_LONG + 1;

// Norms as they are measured: the words of the rules, lent, and the least measure yet of each symbol.
#[derive(Drop)]
pub(crate) struct Measuring<'a> {
    words: &'a RuleWords,
    measures: [u8; SYMBOLS],
    ghost room: { length measures ≡ 32 },
}

impl<'a> Measuring<'a> {
    ghost use Rattle.std.specs.Prelude.{ℕ, ◌<◌, ◌≤◌, true, false, sum, MatchOption};
    ghost use Rattle.norm.specs.Measured.{through as made_of, makes, best_at};
    ghost use Rattle.norm.specs.Measurings.{rules, measured, IsBest, IsReached, IsSettled};

    // The measure of a symbol.
    fn of(&self, symbol: u8) -> u8
        ensures { result ≡ measured self.now symbol }
    {
        self.measures
            .get(symbol as usize)
            .copied()
            .unwrap_or(NO_INPUT)
    }

    // What a rule with this word makes of its symbol's measure.
    fn through(&self, word: &[u8]) -> u8
        ensures { result ≡ made_of 64 (measured self.now) word.now }
    {
        let mut sum = 1u8;
        for symbol in word {
            let measure = self.of(*symbol);
            if measure > TOO_LONG {
                return NO_INPUT;
            }
            sum = (sum + measure).min(TOO_LONG);
        }
        sum
    }

    // What the rule for the symbol and the letter makes of the symbol's measure.
    fn rule(&self, symbol: u8, letter: u8) -> u8
        ensures { result ≡ makes 64 (measured self.now) (rules self.now symbol letter) }
    {
        // No map_or: its closure would make two calls over a loan, and so have to write out what it ensures.
        match self.words.word(symbol, letter) {
            Some(word) => self.through(word.as_slice()),
            None => NO_INPUT,
        }
    }

    // The best rule of a symbol. No `min_by_key`: it would want a filter before, and is
    // no plainer.
    fn best_rule(&self, symbol: u8) -> BestRule
        ensures { IsBest self.now symbol result }
    {
        // Such a symbol has no rule, so none is looked for.
        if symbol >= self.words.count {
            return NO_RULE;
        }
        let mut best = NO_RULE;
        for letter in b'A'..=b'Z' {
            let measure = self.rule(symbol, letter);
            if measure < best.measure {
                best = BestRule { measure, letter };
            }
        }
        best
    }

    // The best rules of all symbols.
    pub(crate) fn best_rules(&self) -> [BestRule; SYMBOLS]
        ensures { (A : ℕ) → A < 32 → IsBest self.now A (best_at result A) }
    {
        std::array::from_fn(|symbol| self.best_rule(symbol as u8))
    }

    // Lowers the measure of each symbol to what its best rule makes of it; whether one fell.
    fn lower_all(&mut self) -> bool
        ensures words { self.new.words.now ≡ self.old.words.now }
        ensures keeps { IsReached self.old → IsReached self.new }
        ensures falls { result ≡ true → sum self.new.measures < sum self.old.measures }
        ensures settled { result ≡ false → IsSettled self.new }
    {
        let mut fell = false;
        // No iter_mut over the measures: a best rule reads all of them.
        for symbol in 0..self.words.count {
            let best = self.best_rule(symbol).measure;
            if best < self.measures[symbol as usize] {
                self.measures[symbol as usize] = best;
                fell = true;
            }
        }
        fell
    }

    // Measures all symbols: what is measured is had, and no rule makes less of it.
    pub(crate) fn settled(words: &'a RuleWords) -> Measuring<'a>
        ensures words { result.words.now ≡ words.now }
        ensures reached { IsReached result }
        ensures settled { IsSettled result }
    {
        let measures = [NO_INPUT; SYMBOLS];
        let mut measuring = Measuring { words, measures };
        // No count: until nothing falls.
        while measuring.lower_all() {}
        measuring
    }

    // The smallest symbol whose measure is above the limit.
    pub(crate) fn first_above(&self, limit: u8) -> Option<u8>
        ensures { MatchOption result ((A : ℕ) → A < self.now.words.now.count → measured self.now A ≤ limit) (λ A. (A < self.now.words.now.count) × (limit < measured self.now A) × ((B : ℕ) → B < A → measured self.now B ≤ limit)) }
    {
        (0..self.words.count).find(|symbol| self.of(*symbol) > limit)
    }
}
