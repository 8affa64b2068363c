// A comparison from turn to turn.
ghost use Rattle.std.specs.Prelude.{◌≡◌, ℕ, ◌≤◌, ◌||◌};
ghost use Rattle.rows.specs.Sheets.{View, Ranked, SelfProving};
ghost use Rattle.sheet.specs.Rowed.{shown, shows};
ghost use Rattle.sheet.specs.declared.sheet.Sheet as sheets;
ghost use Rattle.survey.specs.Surveyed.{surveyed, norm_in};
ghost use Rattle.agreement.specs.Works.{rows_over, Works};
ghost use Rattle.agreement.specs.Agreeing.{Ready};
ghost use Rattle.witness.specs.History.{Given};
ghost use Rattle.walk.specs.Inputs.{letters};
ghost use Rattle.comparison.specs.Deciding.{is_same, Ended, Decided, Found, Shown, IsRight};
ghost use Rattle.comparison.specs.Trails.{Stands, Went, Traced};
ghost use Rattle.comparison.specs.declared.verdict.Verdict.TheVariants.{Same, Different};

use crate::agreed::Agreed;
use crate::comparison::Comparison;
use crate::lead::Lead;
use crate::origin::Origin;
use crate::outcome::Outcome;
use crate::source::Source;
use crate::sources::Sources;
use crate::tracing::{ending, stage};
use crate::treatment::Treatment;
use crate::turning::first_wrong_pair;
use crate::verdict::Verdict;
use crate::words::Words;
use agreement::{Workspace, offset};
use sheet::{MarkGuard, ROWS, Sheet, SheetView};
use survey::Survey;
use tally::Tally;
use walk::Letters;

// Begins the work anew, for these rows.
fn restart<T: Tally>(work: &mut Workspace<T>, survey: &Survey<T>, rows: SheetView<'_>)
    ensures { Ranked survey.now.skeleton.words.count (norm_in survey.now) (shown rows.entry) → Works T.Tally.group (rows_over T.Tally.group survey.now (shown rows.entry)) work.new }
{
    *work = Workspace::new(survey, rows);
}

impl Comparison<'_> {
    // One turn: writes the row that the first pair that does not agree asks for, or answers.
    fn turn<T: Tally>(
        &mut self,
        survey: &Survey<T>,
        guard: &mut MarkGuard<'_>,
        work: &mut Workspace<T>,
    ) -> Outcome
        ensures same_sheet { guard.new.sheet.ghost_name ≡ guard.old.sheet.ghost_name }
        ensures saved { guard.new.saved ≡ guard.old.saved }
        ensures kept { guard.new.kept ≡ guard.old.kept }
        ensures words { self.new.words ≡ self.old.words }
        ensures went { Given (surveyed survey.now) self.old.words.one.now → Given (surveyed survey.now) self.old.words.two.now → (S : sheets.Sheet) → Ranked survey.now.skeleton.words.count (norm_in survey.now) (shows S) → Stands T.Tally.group survey.now self.old.words.one.now self.old.words.two.now S guard.old.sheet.now work.old self.old → Went T.Tally.group survey.now self.old.words.one.now self.old.words.two.now S guard.old.sheet.now guard.new.sheet.now work.old work.new self.old self.new result }
    {
        let wrong = first_wrong_pair(survey, work, guard.view(), self.words, &mut self.agreed);
        let Some((origin, treatment)) = wrong else {
            return Outcome::Same;
        };
        let Treatment::Mend(symbol, row) = treatment else {
            return Outcome::Different(origin);
        };
        let word = row.as_slice();
        work.add_row(symbol, word, offset(survey, symbol, word));
        self.agreed.before(symbol, b'A');
        let marks = guard.view().marks;
        self.sources.push(Source { origin, marks });
        guard.write(symbol, row);
        Outcome::Mended
    }
}

// From a pair that is different back to the given words, row by row: finds an input on which they differ. A row that
// is not true on the input found so far is either the one that was written last, and its source leads on, or it was
// there before.
fn trace<T: Tally>(
    survey: &Survey<T>,
    rows: SheetView<'_>,
    work: &mut Workspace<T>,
    comparison: &mut Comparison<'_>,
    origin: Origin,
    found: &mut Letters,
)
    ensures { Given (surveyed survey.now) comparison.old.words.one.now → Given (surveyed survey.now) comparison.old.words.two.now → Ready T.Tally.group survey.now (shown rows.entry) work.old → (V : View) → Traced T.Tally.group survey.now comparison.old.words.one.now comparison.old.words.two.now V rows.entry.rows.now comparison.old.sources.list (shown rows.entry) comparison.old.sources.len origin → Shown T.Tally.group survey.now comparison.old.words.one.now comparison.old.words.two.now (letters found.new) }
{
    let words = comparison.words;
    let mut lead = ending(survey, work, rows, words, origin, found);
    while let Some(source) = comparison.sources.pop() {
        let Some(Lead::Row(symbol)) = lead else {
            return;
        };
        if source.marks.has(symbol) {
            continue;
        }
        let before = SheetView {
            rows: rows.rows,
            marks: source.marks,
        };
        restart(work, survey, before);
        lead = stage(survey, work, before, words, source.origin, found);
    }
}

// The turns of a comparison on a trial of its rows. Each turn but the last writes a row for a symbol that has
// none, so there are fewer than 32.
fn turns<T: Tally>(
    survey: &Survey<T>,
    guard: &mut MarkGuard<'_>,
    work: &mut Workspace<T>,
    words: Words<'_>,
    found: &mut Letters,
) -> Verdict
    ensures same_sheet { guard.new.sheet.ghost_name ≡ guard.old.sheet.ghost_name }
    ensures saved { guard.new.saved ≡ guard.old.saved }
    ensures kept { guard.new.kept ≡ (is_same result || guard.old.kept) }
    ensures found { result ≡ Same → found.new ≡ found.old }
    ensures ended { Ranked survey.now.skeleton.words.count (norm_in survey.now) (shows guard.old.sheet.now) → Given (surveyed survey.now) words.entry.one.now → Given (surveyed survey.now) words.entry.two.now → Ended T.Tally.group survey.now words.entry.one.now words.entry.two.now guard.old.sheet.now guard.new.sheet.now result (letters found.new) }
{
    restart(work, survey, guard.view());
    let mut comparison = Comparison {
        words,
        agreed: Agreed::none(),
        sources: Sources::none(),
    };
    for _ in 0..ROWS {
        match comparison.turn(survey, guard, work) {
            Outcome::Mended => {}
            Outcome::Same => {
                guard.keep();
                return Verdict::Same;
            }
            Outcome::Different(origin) => {
                trace(survey, guard.view(), work, &mut comparison, origin, found);
                return Verdict::Different;
            }
        }
    }
    Verdict::Different
}

// Decides whether the words are the same. The rows are kept just where the answer is "same"; otherwise the marks
// are as they were, and an input is found on which the words differ. What the workspace and the input hold before is
// free; the workspace is lent, as a function over any tally cannot tell that its size is one.
pub fn decide<T: Tally>(
    survey: &Survey<T>,
    sheet: &mut Sheet,
    work: &mut Workspace<T>,
    one: &[u8],
    two: &[u8],
    found: &mut Letters,
) -> Verdict
    ensures same { Ranked survey.now.skeleton.words.count (norm_in survey.now) (shows sheet.old) → Given (surveyed survey.now) one.now → Given (surveyed survey.now) two.now → result ≡ Same → Decided T.Tally.group survey.now one.now two.now (shows sheet.old) (shows sheet.new) }
    ensures untouched { result ≡ Same → found.new ≡ found.old }
    ensures different { result ≡ Different → sheet.new.marks ≡ sheet.old.marks }
    ensures view { Ranked survey.now.skeleton.words.count (norm_in survey.now) (shows sheet.old) → Given (surveyed survey.now) one.now → Given (surveyed survey.now) two.now → result ≡ Different → (A : ℕ) → shows sheet.new A ≡ shows sheet.old A }
    ensures found { Ranked survey.now.skeleton.words.count (norm_in survey.now) (shows sheet.old) → Given (surveyed survey.now) one.now → Given (surveyed survey.now) two.now → result ≡ Different → Found T.Tally.group survey.now one.now two.now (shows sheet.old) }
    ensures right { 1 ≤ survey.now.skeleton.words.count → Ranked survey.now.skeleton.words.count (norm_in survey.now) (shows sheet.old) → SelfProving T.Tally.group (surveyed survey.now) (rows_over T.Tally.group survey.now (shows sheet.old)) → Given (surveyed survey.now) one.now → Given (surveyed survey.now) two.now → IsRight T.Tally.group survey.now one.now two.now result (letters found.new) }
{
    let mut guard = MarkGuard::new(sheet);
    turns(survey, &mut guard, work, Words { one, two }, found)
}
