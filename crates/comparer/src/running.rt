// Runs.
ghost use Rattle.std.specs.Prelude.{◌≡◌, length, Ok, Err};
ghost use Rattle.grammar.specs.Takes.{takes};
ghost use Rattle.survey.specs.Surveyed.{surveyed};
ghost use Rattle.survey.specs.declared.table.Survey.{Survey};
ghost use Rattle.calls.specs.Refusals.{run_fault, answered};
ghost use Rattle.calls.specs.Histories.{ran};
ghost use Rattle.calls.specs.declared.fault.CallFault.TheVariants.{Grammar as GrammarRefused};
ghost use Rattle.comparer.specs.Comparers.{Over, Without};
ghost use Rattle.comparer.specs.Lawful.{Lawful};
ghost use Rattle.comparer.specs.declared.refused.Refused.{Refused};

use crate::comparer::Comparer;
use calls::{CallFault, check_run};
use grammar::{Grammar, derive};
use tally::Tally;

impl<T: Tally> Comparer<T> {
    // Whether the word takes the input, and the tally.
    pub fn run(&self, word: &[u8], input: &[u8]) -> Result<Option<T>, CallFault>
        ensures over { (s : Survey T) → Over self.now s → result ≡ answered (run_fault s.skeleton.words.count word.now input.now) (takes T.Tally.group (surveyed s) word.now input.now) }
        ensures without { (r : Refused) → Without self.now r → result ≡ Err (GrammarRefused r.fault) }
        ensures lawful { Lawful T.Tally.group self.now (ran word.now input.now result) self.now }
    {
        let desk = self.desk()?;
        check_run(desk.survey.count(), word, input)?;
        Ok(derive(&desk.survey, word, input).unwrap_or(None))
    }
}
