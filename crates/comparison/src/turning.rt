// The first pair that does not agree.
ghost use Rattle.grammar.specs.Meaning.{Below};
ghost use Rattle.sheet.specs.Rowed.{shown};
ghost use Rattle.survey.specs.Surveyed.{surveyed, norm_in, first_in};
ghost use Rattle.agreement.specs.Works.{rows_over};
ghost use Rattle.agreement.specs.Agreeing.{Ready};
ghost use Rattle.witness.specs.History.{Given};
ghost use Rattle.comparison.specs.Turning.{Turned};
ghost use Rattle.comparison.specs.Agreed.{Kept};

use crate::agreed::Agreed;
use crate::looking::first_wrong;
use crate::origin::Origin;
use crate::pair::Pair;
use crate::treating::treat;
use crate::treatment::Treatment;
use crate::words::Words;
use agreement::Workspace;
use sheet::SheetView;
use survey::Survey;
use tally::Tally;

// The first pair that does not agree, in the order in which they are looked at, and what is done with it; none
// where all agree. What is known to agree is not looked at again.
pub(crate) fn first_wrong_pair<T: Tally>(
    survey: &Survey<T>,
    work: &Workspace<T>,
    rows: SheetView<'_>,
    words: Words<'_>,
    agreed: &mut Agreed,
) -> Option<(Origin, Treatment)>
    ensures turned { Ready T.Tally.group survey.now (shown rows.entry) work.now → Given (surveyed survey.now) words.entry.one.now → Given (surveyed survey.now) words.entry.two.now → Kept T.Tally.group (surveyed survey.now) (norm_in survey.now) (first_in survey.now) (rows_over T.Tally.group survey.now (shown rows.entry)) agreed.old → Turned T.Tally.group (surveyed survey.now) (norm_in survey.now) (first_in survey.now) (rows_over T.Tally.group survey.now (shown rows.entry)) words.entry.one.now words.entry.two.now result }
    ensures kept { Ready T.Tally.group survey.now (shown rows.entry) work.now → Kept T.Tally.group (surveyed survey.now) (norm_in survey.now) (first_in survey.now) (rows_over T.Tally.group survey.now (shown rows.entry)) agreed.old → Kept T.Tally.group (surveyed survey.now) (norm_in survey.now) (first_in survey.now) (rows_over T.Tally.group survey.now (shown rows.entry)) agreed.new }
{
    let pair = Pair {
        one: words.one,
        two: words.two,
        before_one: T::zero(),
        before_two: T::zero(),
    };
    let given = treat(survey, work, &pair);
    if !given.agrees() {
        return Some((Origin::Given, given));
    }
    let mut from = 0;
    while let Some((symbol, _)) = rows.next(from) {
        let known = agreed.from(symbol);
        if let Some((letter, treatment)) = first_wrong(survey, work, rows, symbol, known) {
            agreed.before(symbol, letter);
            return Some((Origin::Row { symbol, letter }, treatment));
        }
        agreed.before(symbol, b'Z' + 1);
        from = symbol + 1;
    }
    None
}
