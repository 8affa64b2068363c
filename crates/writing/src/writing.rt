// A file, written section by section.
ghost use Rattle.std.specs.Prelude.{◌≡◌, ◌≤◌, ◌∷◌, length, None};
ghost use Rattle.layout.specs.Contents.{encode};
ghost use Rattle.format.specs.Lent.{Wrote};
ghost use Rattle.survey.specs.Surveyed.{surveyed};
ghost use Rattle.sheet.specs.Rowed.{shown};
ghost use Rattle.calls.specs.Refusals.{first_of};
ghost use Rattle.writing.specs.Files.{file_of, file_faults};

use crate::rules::rules_into;
use calls::{put, rows_into};
use format::FileTally;
use grammar::Grammar;
use sheet::SheetView;
use survey::Survey;

// Writes the kinds of the tally at a place, behind their count, and answers the place behind them.
fn kinds_into<T: FileTally>(out: &mut [u8], start: usize) -> usize
    ensures { length T.FileTally.kinds ≤ 2 → Wrote out.old start (length T.FileTally.kinds ∷ T.FileTally.kinds) result out.new }
{
    let mut at = put(out, start, &[T::kind_count()]);
    // By place: a tally gives its kinds one by one.
    for place in 0..T::kind_count() {
        if let Some(kind) = T::kind(place) {
            at = put(out, at, &[kind]);
        }
    }
    at
}

// Writes the file at the start of the buffer, where it has room, and answers how many bytes it has. The names
// are one for each symbol, and the kinds such as a file can hold: that is checked before.
pub fn write_into<T: FileTally>(
    survey: &Survey<T>,
    rows: SheetView<'_>,
    names: &[u8],
    out: &mut [u8],
) -> usize
    ensures { first_of (file_faults survey.now.skeleton.words.count T.FileTally.kinds names.now) ≡ None → Wrote out.old 0 (encode (file_of names.now T.FileTally.kinds T.FileTally.numbers (surveyed survey.now) (shown rows.entry))) result out.new }
{
    let count = put(out, 0, &[survey.count()]);
    let names = put(out, count, names);
    let kinds = kinds_into::<T>(out, names);
    let rules = rules_into(survey, out, kinds);
    rows_into(rows, out, rules)
}
