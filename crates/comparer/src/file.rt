// Writing a file.
ghost use Rattle.std.specs.Prelude.{◌≡◌, ℕ, ◌≤◌, List, ◌++◌, length, drop, None, Ok, Err};
ghost use Rattle.layout.specs.Contents.{Contents, rows_bytes, encode};
ghost use Rattle.layout.specs.Laws.{Bytes};
ghost use Rattle.layout.specs.Reading.{checked};
ghost use Rattle.file_grammar.specs.Filed.{file_meaning};
ghost use Rattle.rows.specs.Sheets.{Ranked};
ghost use Rattle.survey.specs.Surveyed.{surveyed, norm_in, first_in};
ghost use Rattle.survey.specs.declared.table.Survey.{Survey};
ghost use Rattle.calls.specs.Refusals.{first_of, answered};
ghost use Rattle.calls.specs.Offers.{with_rows, Offered};
ghost use Rattle.calls.specs.Histories.{Event};
ghost use Rattle.calls.specs.declared.fault.CallFault.{CallFault as faults};
ghost use Rattle.writing.specs.Files.{file_of, file_faults, min_file, write_fault, refused_write};
ghost use Rattle.writing.specs.Laws.{FileLaw, Taken};
ghost use Rattle.comparer.specs.Comparers.{rows_of, Over, Without};
ghost use Rattle.comparer.specs.Lawful.{HistoryOver};
ghost use Rattle.comparer.specs.declared.refused.Refused.{Refused};

use crate::comparer::Comparer;
use calls::CallFault;
use format::FileTally;
use writing::{check_names, check_room, write_into};

impl<T: FileTally> Comparer<T> {
    // Writes a file with the names, the rules of its grammar and its rows at the start of the buffer, answers its
    // length, and leaves the rest. The check reads it back; where calls of any kind led to the rows, a new comparer over
    // the file's grammar takes them; and a file whose rows were taken so is written back byte for byte.
    pub fn write_file(&self, names: &[u8], out: &mut [u8]) -> Result<usize, CallFault>
        ensures over { (s : Survey T) → Over self.now s → Ranked s.skeleton.words.count (norm_in s) (rows_of self.now) → result ≡ answered (write_fault s.skeleton.words.count T.FileTally.kinds names.now (length out.old)) (length (encode (file_of names.now T.FileTally.kinds T.FileTally.numbers (surveyed s) (rows_of self.now)))) }
        ensures without { (r : Refused) → Without self.now r → result ≡ Err (refused_write r.count T.FileTally.kinds names.now r.fault) }
        ensures refused { (f : faults) → result ≡ Err f → out.new ≡ out.old }
        ensures out { (s : Survey T) → Over self.now s → Ranked s.skeleton.words.count (norm_in s) (rows_of self.now) → (n : ℕ) → result ≡ Ok n → out.new ≡ encode (file_of names.now T.FileTally.kinds T.FileTally.numbers (surveyed s) (rows_of self.now)) ++ drop n out.old }
        ensures law { (s : Survey T) → Over self.now s → Ranked s.skeleton.words.count (norm_in s) (rows_of self.now) → first_of (file_faults s.skeleton.words.count T.FileTally.kinds names.now) ≡ None → FileLaw names.now T.FileTally.kinds T.FileTally.made (surveyed s) (rows_of self.now) (file_of names.now T.FileTally.kinds T.FileTally.numbers (surveyed s) (rows_of self.now)) }
        ensures taken { (s : Survey T) → Over self.now s → (es : List (Event T)) → HistoryOver T.Tally.group s es (rows_of self.now) → Taken T.Tally.group (surveyed s) (norm_in s) (first_in s) (rows_of self.now) (file_of names.now T.FileTally.kinds T.FileTally.numbers (surveyed s) (rows_of self.now)) }
        ensures back { (s : Survey T) → Over self.now s → (bs : List ℕ) (c : Contents) → Bytes bs → checked T.FileTally.kinds bs ≡ Ok c → file_meaning T.FileTally.kinds T.FileTally.made bs ≡ surveyed s → Offered T.Tally.group (surveyed s) (norm_in s) (first_in s) (λ A. None) (rows_bytes c.rows) (Ok c.rows) → ((A : ℕ) → rows_of self.now A ≡ with_rows (λ B. None) c.rows A) → names.now ≡ c.names → min_file ≤ length out.old → (result ≡ Ok (length bs)) × (out.new ≡ bs ++ drop (length bs) out.old) }
    {
        check_names::<T>(self.count(), names)?;
        let desk = self.desk()?;
        check_room(out.len())?;
        Ok(write_into(&desk.survey, self.sheet.view(), names, out))
    }
}
