// Rows that are offered, and what each is tested for.
ghost use Rattle.std.specs.Prelude.{◌≡◌, ℕ, ◌<◌, ◌≤◌, length, Decides, Ok, Err};
ghost use Rattle.norm.specs.Tabled.{held};
ghost use Rattle.rows.specs.Sheets.{View};
ghost use Rattle.sheet.specs.Rowed.{shown};
ghost use Rattle.survey.specs.Surveyed.{surveyed, norm_in, first_in};
ghost use Rattle.calls.specs.Offers.{AllOf, FirstOf, Passes, fault_of};

use crate::fault::CallFault;
use crate::test::Test;
use agreement::{may_stand, takes_first};
use sheet::{Row, SheetView};
use survey::Survey;
use tally::Tally;

// The fault of a row that does not pass a test.
fn fault(test: Test, symbol: u8) -> CallFault
    ensures { result ≡ fault_of test symbol }
{
    match test {
        Test::Free => CallFault::Marked(symbol),
        Test::Like => CallFault::Unlike(symbol),
        Test::TakesFirst => CallFault::Misses(symbol),
    }
}

// Whether an offered row passes a test, beside the rows that are there.
fn passes<T: Tally>(
    survey: &Survey<T>,
    rows: SheetView<'_>,
    test: Test,
    symbol: u8,
    row: &Row,
) -> bool
    ensures { symbol < survey.now.skeleton.words.count → Decides result (Passes T.Tally.group (surveyed survey.now) (norm_in survey.now) (first_in survey.now) (shown rows.entry) test symbol (held row.now)) }
{
    let word = row.as_slice();
    match test {
        Test::Free => rows.row(symbol).is_none(),
        Test::Like => may_stand(survey.skeleton(), symbol, word),
        Test::TakesFirst => takes_first(survey, symbol, word),
    }
}

// Tests the offered rows, by symbol; refused for the first that does not pass.
pub fn check_rows<T: Tally>(
    survey: &Survey<T>,
    rows: SheetView<'_>,
    test: Test,
    offered: SheetView<'_>,
) -> Result<(), CallFault>
    ensures { AllOf (λ A w. A < survey.now.skeleton.words.count) (shown offered.entry) → elim result [ Ok u ↦ AllOf (Passes T.Tally.group (surveyed survey.now) (norm_in survey.now) (first_in survey.now) (shown rows.entry) test) (shown offered.entry) | Err f ↦ (A : ℕ) × (f ≡ fault_of test A) × FirstOf (λ B w. ¬ Passes T.Tally.group (surveyed survey.now) (norm_in survey.now) (first_in survey.now) (shown rows.entry) test B w) (shown offered.entry) A ] }
{
    let mut from = 0;
    while let Some((symbol, row)) = offered.next(from) {
        if !passes(survey, rows, test, symbol, row) {
            return Err(fault(test, symbol));
        }
        from = symbol + 1;
    }
    Ok(())
}
