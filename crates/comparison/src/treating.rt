// The treatment of a pair of words.
ghost use Rattle.std.specs.Prelude.{◌≡◌, ◌<◌, ◌≤◌, [], ◌∷◌, Some, None, MatchOption};
ghost use Rattle.grammar.specs.Meaning.{Word, Weighted, Below};
ghost use Rattle.grammar.specs.WordStacks.{held};
ghost use Rattle.norm.specs.Words.{ran};
ghost use Rattle.norm.specs.Norms.{norms};
ghost use Rattle.rows.specs.Sheets.{View};
ghost use Rattle.survey.specs.Surveyed.{surveyed, norm_in, first_in};
ghost use Rattle.agreement.specs.Works.{rows_over};
ghost use Rattle.agreement.specs.Agreeing.{Ready};
ghost use Rattle.comparison.specs.Treating.{pair_of, Workable, Mends, Treats};

use crate::fork::first_difference;
use crate::pair::Pair;
use crate::treatment::Treatment;
use agreement::{Workspace, first_input, takes_first};
use grammar::WordStack;
use sheet::row_of;
use survey::Survey;
use tally::Tally;

// The earlier symbol and what is left when its first input is read from the later one; none if it cannot be
// read.
pub(crate) fn read_row<T: Tally>(
    survey: &Survey<T>,
    later: u8,
    earlier: u8,
) -> Option<WordStack<512>>
    ensures { later < survey.now.skeleton.words.count → earlier < survey.now.skeleton.words.count → MatchOption result (ran T.Tally.group (surveyed survey.now) (later ∷ []) (first_in survey.now earlier) ≡ None) (λ w. (m : Weighted T) × (ran T.Tally.group (surveyed survey.now) (later ∷ []) (first_in survey.now earlier) ≡ Some m) × (held w ≡ earlier ∷ m.word)) }
{
    let mut letters = [0; 64];
    let first = first_input(survey, earlier, &mut letters);
    let run = survey.run(&[later], first)?;
    let mut word = run.left;
    word.push(earlier);
    Some(word)
}

// What is done where the later symbol and the earlier one differ: the later one gets the earlier one and what is
// left when the earlier one's first input is read from it, if that can be its row.
fn mend<T: Tally>(survey: &Survey<T>, later: u8, earlier: u8) -> Treatment
    ensures { later < survey.now.skeleton.words.count → earlier < survey.now.skeleton.words.count → Mends T.Tally.group (surveyed survey.now) (norm_in survey.now) (first_in survey.now) later earlier result }
{
    let Some(stack) = read_row(survey, later, earlier) else {
        return Treatment::Different;
    };
    let word = stack.word();
    let skeleton = survey.skeleton();
    if skeleton.norm_of(word) != skeleton.norm(later) as usize {
        return Treatment::Different;
    }
    if !takes_first(survey, later, word) {
        return Treatment::Different;
    }
    Treatment::Mend(later, row_of(word))
}

// What is done with a pair of words.
pub(crate) fn treat<T: Tally>(
    survey: &Survey<T>,
    work: &Workspace<T>,
    pair: &Pair<'_, T>,
) -> Treatment
    ensures { (V : View) → Ready T.Tally.group survey.now V work.now → Workable survey.now.skeleton.words.count (norm_in survey.now) (pair_of pair.now) → Treats T.Tally.group (surveyed survey.now) (norm_in survey.now) (first_in survey.now) (rows_over T.Tally.group survey.now V) (pair_of pair.now) result }
{
    let skeleton = survey.skeleton();
    if skeleton.norm_of(pair.one) != skeleton.norm_of(pair.two) {
        return Treatment::Different;
    }
    let one = work.normal_form(pair.one);
    let two = work.normal_form(pair.two);
    let Some((a, b)) = first_difference(one.word.word(), two.word.word()) else {
        if pair.before_one.add(one.sum) == pair.before_two.add(two.sum) {
            return Treatment::Agree;
        }
        return Treatment::Different;
    };
    if skeleton.earlier(a, b) {
        mend(survey, b, a)
    } else {
        mend(survey, a, b)
    }
}
