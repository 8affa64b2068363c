// How a skeleton is made.
ghost use Rattle.std.specs.Prelude.{◌≡◌, Ok, Err};
ghost use Rattle.norm.specs.Ruled.{rules_of};
ghost use Rattle.norm.specs.Measured.{Unnormed};

use crate::fault::NormFault;
use crate::measure::{MAX_NORM, Measuring, TOO_LONG};
use crate::rule_words::RuleWords;
use crate::skeleton::Skeleton;

impl Skeleton {
    // The skeleton over these words, unless a symbol takes no input or has too great a norm.
    pub fn new(words: RuleWords) -> Result<Skeleton, NormFault>
        ensures { elim result [ Ok s ↦ s.words ≡ words | Err f ↦ Unnormed 64 words.count (rules_of words) f ] }
    {
        let measuring = Measuring::settled(&words);
        let best_rules = measuring.best_rules();
        if let Some(symbol) = measuring.first_above(TOO_LONG) {
            return Err(NormFault::NoInput(symbol));
        }
        if let Some(symbol) = measuring.first_above(MAX_NORM) {
            return Err(NormFault::TooLong(symbol));
        }
        Ok(Skeleton { words, best_rules })
    }
}
