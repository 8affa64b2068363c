// The pairs that are looked at.
ghost use Rattle.std.specs.Prelude.{◌≡◌, Some};
ghost use Rattle.grammar.specs.Meaning.{Weighted};
ghost use Rattle.sheet.specs.Rowed.{shown};
ghost use Rattle.survey.specs.Surveyed.{surveyed, norm_in, first_in};
ghost use Rattle.agreement.specs.Works.{rows_over};
ghost use Rattle.agreement.specs.Agreeing.{Ready};
ghost use Rattle.grammar.specs.Takes.{step};
ghost use Rattle.norm.specs.Words.{raised};
ghost use Rattle.comparison.specs.Turning.{TreatsSides, RowTurned};

use crate::pair::Pair;
use crate::treating::treat;
use crate::treatment::Treatment;
use agreement::Workspace;
use sheet::SheetView;
use survey::Survey;
use tally::Tally;

// What is done with the two sides of the symbol's row at the letter.
pub(crate) fn treat_row<T: Tally>(
    survey: &Survey<T>,
    work: &Workspace<T>,
    rows: SheetView<'_>,
    symbol: u8,
    letter: u8,
) -> Treatment
    ensures { Ready T.Tally.group survey.now (shown rows.entry) work.now → (m : Weighted T) → rows_over T.Tally.group survey.now (shown rows.entry) symbol ≡ Some m → TreatsSides T.Tally.group (surveyed survey.now) (norm_in survey.now) (first_in survey.now) (rows_over T.Tally.group survey.now (shown rows.entry)) ((surveyed survey.now).rule symbol letter) (raised T.Tally.group m.tally (step (surveyed survey.now) m.word letter)) result }
{
    let Some(row) = rows.row(symbol) else {
        return Treatment::Agree;
    };
    let own = survey.run(&[symbol], &[letter]);
    let other = survey.run(row.as_slice(), &[letter]);
    match (own, other) {
        (None, None) => Treatment::Agree,
        (Some(own), Some(other)) => {
            let pair = Pair {
                one: own.left.word(),
                two: other.left.word(),
                before_one: own.tally,
                before_two: work.offset(symbol).add(other.tally),
            };
            treat(survey, work, &pair)
        }
        _ => Treatment::Different,
    }
}

// The first letter from `from` on at which the symbol's row does not agree, and what is done there.
pub(crate) fn first_wrong<T: Tally>(
    survey: &Survey<T>,
    work: &Workspace<T>,
    rows: SheetView<'_>,
    symbol: u8,
    from: u8,
) -> Option<(u8, Treatment)>
    ensures { Ready T.Tally.group survey.now (shown rows.entry) work.now → (m : Weighted T) → rows_over T.Tally.group survey.now (shown rows.entry) symbol ≡ Some m → RowTurned T.Tally.group (surveyed survey.now) (norm_in survey.now) (first_in survey.now) (rows_over T.Tally.group survey.now (shown rows.entry)) symbol m from result }
{
    for letter in from..=b'Z' {
        let treatment = treat_row(survey, work, rows, symbol, letter);
        if !treatment.agrees() {
            return Some((letter, treatment));
        }
    }
    None
}
