// A survey as a grammar: each question is one look into its tables.
ghost use Rattle.std.specs.Prelude.{◌≡◌, ◌<◌};
ghost use Rattle.std.specs.Option.{option_map};
ghost use Rattle.std.specs.List.{slice_get};
ghost use Rattle.grammar.specs.Places.{index};
ghost use Rattle.norm.specs.Tabled.{held};
ghost use Rattle.survey.specs.Surveyed.{words_in, surveyed};
ghost use Rattle.survey.specs.WellSurveyed.{surveyed_wellformed};

use crate::table::Survey;
use grammar::{Grammar, index_of};
use norm::ShortWord;
use tally::Tally;

impl<T: Tally> Survey<T> {
    // The word of the rule for the symbol and the letter, if there is one.
    pub(crate) fn rule_word(&self, symbol: u8, letter: u8) -> Option<ShortWord<4>>
        ensures { option_map held result ≡ words_in self.now symbol letter }
    {
        self.skeleton.words.word(symbol, letter)
    }
}

impl<T: Tally> Grammar for Survey<T> {
    type T = T;

    ghost meaning = { λ s. surveyed s };

    ghost wellformed = { λ s. surveyed_wellformed s };

    fn count(&self) -> u8 {
        self.skeleton.words.count
    }

    fn has_rule(&self, symbol: u8, letter: u8) -> bool {
        self.rule_word(symbol, letter).is_some()
    }

    // 0, and 255 below: a question's answer where there is no rule is fixed.
    fn rule_len(&self, symbol: u8, letter: u8) -> u8 {
        self.rule_word(symbol, letter).map_or(0, |word| word.len)
    }

    fn rule_symbol(&self, symbol: u8, letter: u8, at: u8) -> u8 {
        self.rule_word(symbol, letter)
            .map_or(255, |word| word.symbol(at))
    }

    fn rule_tally(&self, symbol: u8, letter: u8) -> T {
        match self.rule_word(symbol, letter) {
            Some(_) => self
                .tallies
                .get(index_of(symbol, letter))
                .copied()
                .unwrap_or(T::zero()),
            None => T::zero(),
        }
    }
}
