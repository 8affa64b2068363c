// Comparisons.
ghost use Rattle.std.specs.Prelude.{◌≡◌, ℕ, ◌≤◌, ◌↔◌, length, take, drop, Some, Ok, Err};
ghost use Rattle.rows.specs.Sheets.{Ranked};
ghost use Rattle.survey.specs.Surveyed.{surveyed, norm_in, first_in};
ghost use Rattle.survey.specs.declared.table.Survey.{Survey};
ghost use Rattle.calls.specs.Refusals.{compare_fault};
ghost use Rattle.comparison.specs.Procedure.{SaysSame, SaysDifferent};
ghost use Rattle.calls.specs.Histories.{compared};
ghost use Rattle.calls.specs.declared.answer.Answer.TheVariants.{Same, Different};
ghost use Rattle.calls.specs.declared.fault.CallFault.{CallFault as faults};
ghost use Rattle.calls.specs.declared.fault.CallFault.TheVariants.{Grammar as GrammarRefused};
ghost use Rattle.comparer.specs.Comparers.{rows_of, Over, Without, comparing};
ghost use Rattle.comparer.specs.Lawful.{Lawful};
ghost use Rattle.comparer.specs.declared.refused.Refused.{Refused};

use crate::comparer::Comparer;
use calls::{Answer, CallFault, check_compare};
use comparison::{Verdict, decide};
use grammar::Grammar;
use tally::Tally;
use walk::Letters;

impl<T: Tally> Comparer<T> {
    // Compares two words. Where they are the same, rows are left that prove it; where they are not, an input on which
    // they differ fills the start of the buffer, and the marks are as they were.
    pub fn compare(&mut self, one: &[u8], two: &[u8], out: &mut [u8]) -> Result<Answer, CallFault>
        ensures fault { (s : Survey T) → Over self.old s → (f : faults) → (result ≡ Err f) ↔ (compare_fault s.skeleton.words.count one.now two.now (length out.old) ≡ Some f) }
        ensures without { (r : Refused) → Without self.old r → result ≡ Err (GrammarRefused r.fault) }
        ensures refused { (f : faults) → result ≡ Err f → (self.new ≡ self.old) × (out.new ≡ out.old) }
        ensures same { (s : Survey T) → Over self.old s → Ranked s.skeleton.words.count (norm_in s) (rows_of self.old) → result ≡ Ok Same → SaysSame T.Tally.group (surveyed s) (norm_in s) (first_in s) one.now two.now (rows_of self.old) (rows_of self.new) }
        ensures untouched { result ≡ Ok Same → out.new ≡ out.old }
        ensures different { (s : Survey T) → Over self.old s → Ranked s.skeleton.words.count (norm_in s) (rows_of self.old) → (n : ℕ) → result ≡ Ok (Different n) → SaysDifferent T.Tally.group (surveyed s) (norm_in s) (first_in s) one.now two.now (rows_of self.old) × ((A : ℕ) → rows_of self.new A ≡ rows_of self.old A) }
        ensures shown { (n : ℕ) → result ≡ Ok (Different n) → (n ≤ 16384) × (length out.new ≡ length out.old) × (drop n out.new ≡ drop n out.old) }
        ensures marks { (n : ℕ) → result ≡ Ok (Different n) → self.new.sheet.marks ≡ self.old.sheet.marks }
        ensures lawful { Lawful T.Tally.group self.old (compared one.now two.now (length out.old) (comparing result out.new)) self.new }
    {
        let desk = match &mut self.desk {
            Ok(desk) => desk,
            Err(refused) => return Err(CallFault::from(refused.fault)),
        };
        check_compare(desk.survey.count(), one, two, out.len())?;
        let mut found = Letters::new();
        let sheet = &mut self.sheet;
        match decide(&desk.survey, sheet, &mut desk.work, one, two, &mut found) {
            Verdict::Same => Ok(Answer::Same),
            Verdict::Different => {
                let input = found.as_slice();
                out[..input.len()].copy_from_slice(input);
                Ok(Answer::Different(input.len()))
            }
        }
    }
}
