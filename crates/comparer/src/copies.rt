// Copies.
ghost use Rattle.std.specs.Prelude.{◌≡◌, ◌++◌, length, drop, Ok, Err};
ghost use Rattle.rows.specs.Sheets.{Ranked};
ghost use Rattle.survey.specs.Surveyed.{norm_in};
ghost use Rattle.survey.specs.declared.table.Survey.{Survey};
ghost use Rattle.calls.specs.Refusals.{copy_fault, answered};
ghost use Rattle.calls.specs.Offers.{copied};
ghost use Rattle.calls.specs.declared.fault.CallFault.{CallFault as faults};
ghost use Rattle.calls.specs.declared.fault.CallFault.TheVariants.{Grammar as GrammarRefused};
ghost use Rattle.comparer.specs.Comparers.{rows_of, Over, Without, copying};
ghost use Rattle.comparer.specs.Lawful.{Lawful};
ghost use Rattle.comparer.specs.declared.refused.Refused.{Refused};

use crate::comparer::Comparer;
use calls::{CallFault, check_copy, copy_into};
use tally::Tally;

impl<T: Tally> Comparer<T> {
    // Writes the rows as a section at the start of the buffer, answers its length, and leaves the rest.
    pub fn copy_rows(&self, out: &mut [u8]) -> Result<usize, CallFault>
        ensures over { (s : Survey T) → Over self.now s → Ranked s.skeleton.words.count (norm_in s) (rows_of self.now) → result ≡ answered (copy_fault (length out.old)) (length (copied (rows_of self.now))) }
        ensures without { (r : Refused) → Without self.now r → result ≡ Err (GrammarRefused r.fault) }
        ensures refused { (f : faults) → result ≡ Err f → out.new ≡ out.old }
        ensures out { (s : Survey T) → Over self.now s → Ranked s.skeleton.words.count (norm_in s) (rows_of self.now) → result ≡ Ok (length (copied (rows_of self.now))) → out.new ≡ copied (rows_of self.now) ++ drop (length (copied (rows_of self.now))) out.old }
        ensures lawful { Lawful T.Tally.group self.now (copying (length out.old) result out.new) self.now }
    {
        self.desk()?;
        check_copy(out.len())?;
        Ok(copy_into(self.sheet.view(), out))
    }
}
