// How a workspace takes up rows.
ghost use Rattle.std.specs.Prelude.{ℕ, None};
ghost use Rattle.rows.specs.Sheets.{Sheet, unweighed, Ranked};
ghost use Rattle.rows.specs.Replacing.{Grown};
ghost use Rattle.survey.specs.Surveyed.{norm_in};
ghost use Rattle.sheet.specs.Rowed.{shown};
ghost use Rattle.agreement.specs.Works.{rows_over, Works, Within};

use crate::forms::Forms;
use crate::offsets::offset;
use crate::replacing::shortened;
use crate::workspace::Workspace;
use sheet::SheetView;
use survey::Survey;
use tally::Tally;

impl<T: Tally> Workspace<T> {
    // The workspace of a sheet without rows.
    fn without_rows() -> Workspace<T>
        ensures { Works T.Tally.group (λ A. None) result }
    {
        Workspace {
            forms: Forms::plain(),
            offsets: [T::zero(); 32],
        }
    }

    // The workspace of the rows over a survey.
    pub fn new(survey: &Survey<T>, rows: SheetView<'_>) -> Workspace<T>
        ensures { Ranked survey.now.skeleton.words.count (norm_in survey.now) (shown rows.entry) → Works T.Tally.group (rows_over T.Tally.group survey.now (shown rows.entry)) result }
    {
        let mut work = Workspace::without_rows();
        let mut from = 0;
        while let Some((symbol, row)) = rows.next(from) {
            let word = row.as_slice();
            work.add_row(symbol, word, offset(survey, symbol, word));
            from = symbol + 1;
        }
        work
    }

    // Takes up a new row: in every form its symbol gives way to the normal form of its word.
    pub fn add_row(&mut self, symbol: u8, word: &[u8], offset: T)
        ensures { (n : ℕ) (norm : ℕ → ℕ) (D E : Sheet T) → Within 64 n norm → Ranked n norm (unweighed E) → Grown D symbol (record { word = word.now; tally = offset }) E → Works T.Tally.group D self.old → Works T.Tally.group E self.new }
    {
        let normal = self.forms.replace(word);
        let mut row = Forms::plain();
        row.set(symbol, shortened(&normal, offset.add(normal.sum)));
        self.forms.refill(symbol, &row);
        if symbol < 32 {
            self.offsets[symbol as usize] = offset;
        }
    }
}
