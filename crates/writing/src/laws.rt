// The law of written files.
ghost use Rattle.std.specs.Prelude.{◌≡◌, ℕ, ◌≤◌, List, None};
ghost use Rattle.rows.specs.Sheets.{View, Ranked};
ghost use Rattle.survey.specs.Surveyed.{surveyed, norm_in, first_in};
ghost use Rattle.survey.specs.declared.table.Survey.{Survey};
ghost use Rattle.calls.specs.Refusals.{first_of};
ghost use Rattle.calls.proofs.Ground.{Standing};
ghost use Rattle.writing.specs.Files.{file_faults, file_of};
ghost use Rattle.writing.specs.Laws.{FileLaw, Taken};
ghost use Rattle.writing.specs.Example.{Examples};

use format::FileTally;

// What is proved of written files, for every tally that a file can hold. A file has at least one symbol.
pub fn files_stand<T: FileTally>()
    ensures law { (s : Survey T) (V : View) (names : List ℕ) → 1 ≤ s.skeleton.words.count → Ranked s.skeleton.words.count (norm_in s) V → first_of (file_faults s.skeleton.words.count T.FileTally.kinds names) ≡ None → FileLaw names T.FileTally.kinds T.FileTally.made (surveyed s) V (file_of names T.FileTally.kinds T.FileTally.numbers (surveyed s) V) }
    ensures taken { (s : Survey T) (V : View) (names : List ℕ) → Standing T.Tally.group (surveyed s) (norm_in s) (first_in s) V → Taken T.Tally.group (surveyed s) (norm_in s) (first_in s) V (file_of names T.FileTally.kinds T.FileTally.numbers (surveyed s) V) }
    ensures examples { Examples }
{}
