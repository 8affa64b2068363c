// Runs over a survey.
ghost use Rattle.std.specs.Prelude.{◌≡◌, ◌+◌, ◌*◌, ◌≤◌, length};
ghost use Rattle.std.specs.Option.{option_map};
ghost use Rattle.norm.specs.Words.{ran};
ghost use Rattle.survey.specs.Surveyed.{surveyed, run_of};

use crate::run::Run;
use crate::table::Survey;
use grammar::{Grammar, WordStack};
use norm::{Skeleton, WORD_CAPACITY};
use tally::Tally;

impl<T: Tally> Survey<T> {
    // The words of its rules, with norms and first inputs.
    pub fn skeleton(&self) -> &Skeleton
        ensures { result.now ≡ self.now.skeleton }
    {
        &self.skeleton
    }

    // Runs the input from the word: what is left, and the tally; none where a step is missing. A step
    // takes one symbol off and puts at most four on, so 512 symbols suffice where the word and three
    // for each letter come to no more.
    pub fn run(&self, word: &[u8], input: &[u8]) -> Option<Run<T>>
        ensures { length word.now + 3 * length input.now ≤ 512 → option_map run_of result ≡ ran T.Tally.group (surveyed self.now) word.now input.now }
    {
        let mut left = WordStack::<WORD_CAPACITY>::new();
        left.push_word(word);
        let mut tally = T::zero();
        for letter in input {
            let symbol = left.pop()?;
            let rule = self.rule_word(symbol, *letter)?;
            left.push_word(rule.as_slice());
            tally = tally.add(self.rule_tally(symbol, *letter));
        }
        Some(Run { left, tally })
    }
}
