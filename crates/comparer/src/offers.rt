// Offers.
ghost use Rattle.std.specs.Prelude.{◌≡◌, ℕ, List, Ok, Err};
ghost use Rattle.layout.specs.Contents.{FileRow};
ghost use Rattle.layout.specs.declared.fault.Fault.{Fault};
ghost use Rattle.rows.specs.Sheets.{Ranked};
ghost use Rattle.sheet.specs.Rowed.{shown, row_at};
ghost use Rattle.sheet.specs.Candidates.{candidates};
ghost use Rattle.survey.specs.Surveyed.{norm_in};
ghost use Rattle.survey.specs.declared.table.Survey.{Survey};
ghost use Rattle.calls.specs.declared.fault.CallFault.{CallFault as faults};
ghost use Rattle.calls.specs.declared.fault.CallFault.TheVariants.{Grammar as GrammarRefused};
ghost use Rattle.comparer.specs.Comparers.{rows_of, Over, Without, offering, after_offer, sheet_after, refused_offer};
ghost use Rattle.comparer.specs.Lawful.{Lawful};
ghost use Rattle.comparer.specs.declared.refused.Refused.{Refused};

use crate::comparer::Comparer;
use crate::desk::Desk;
use agreement::Workspace;
use calls::{CallFault, Test, check_rows};
use sheet::{Sheet, SheetView, candidate_rows};
use tally::Tally;

impl<T: Tally> Desk<T> {
    // The rows with those that are offered, if each of these passes its tests and all rows agree then.
    fn with_offered(&self, rows: SheetView<'_>, offered: SheetView<'_>) -> Result<Sheet, CallFault>
        ensures { (bs : List ℕ) (rs : List FileRow) → candidates self.now.survey.skeleton.words.count bs ≡ Ok rs → ((A : ℕ) → shown offered.entry A ≡ row_at A rs) → Ranked self.now.survey.skeleton.words.count (norm_in self.now.survey) (shown rows.entry) → sheet_after T.Tally.group self.now.survey (shown rows.entry) bs result }
    {
        check_rows(&self.survey, rows, Test::Free, offered)?;
        check_rows(&self.survey, rows, Test::Like, offered)?;
        check_rows(&self.survey, rows, Test::TakesFirst, offered)?;
        let mut trial = Sheet {
            rows: *rows.rows,
            marks: rows.marks,
        };
        trial.adopt(offered);
        let work = Workspace::new(&self.survey, trial.view());
        match work.first_disagreement(&self.survey, trial.view()) {
            Some(at) => Err(CallFault::Disagrees(at)),
            None => Ok(trial),
        }
    }
}

impl<T: Tally> Comparer<T> {
    // Its rows with those that are offered.
    fn trial(&self, offered: SheetView<'_>) -> Result<Sheet, CallFault>
        ensures over { (s : Survey T) (bs : List ℕ) (rs : List FileRow) → Over self.now s → candidates s.skeleton.words.count bs ≡ Ok rs → ((A : ℕ) → shown offered.entry A ≡ row_at A rs) → Ranked s.skeleton.words.count (norm_in s) (rows_of self.now) → sheet_after T.Tally.group s (rows_of self.now) bs result }
        ensures without { (r : Refused) → Without self.now r → result ≡ Err (GrammarRefused r.fault) }
    {
        let desk = self.desk()?;
        desk.with_offered(self.sheet.view(), offered)
    }

    // Takes over the rows of a section, all of them, if each passes its tests and all rows agree then, the old ones too.
    pub fn offer(&mut self, bytes: &[u8]) -> Result<(), CallFault>
        ensures over { (s : Survey T) → Over self.old s → Ranked s.skeleton.words.count (norm_in s) (rows_of self.old) → after_offer T.Tally.group s (rows_of self.old) bytes.now result (rows_of self.new) }
        ensures without { (r : Refused) → Without self.old r → result ≡ Err (refused_offer r (candidates r.count bytes.now)) }
        ensures refused { (f : faults) → result ≡ Err f → self.new ≡ self.old }
        ensures desk { self.new.desk ≡ self.old.desk }
        ensures lawful { (n : ℕ) → (s : Survey T) → Over self.old s → n ≡ s.skeleton.words.count → Lawful T.Tally.group self.old (offering n bytes.now result) self.new }
    {
        let offered = candidate_rows(bytes, self.count())?;
        let trial = self.trial(offered.view())?;
        self.sheet = trial;
        Ok(())
    }
}
