// The tests that a candidate row has to pass by itself.
ghost use Rattle.std.specs.Prelude.{◌<◌, ◌≤◌, length, Decides};
ghost use Rattle.norm.specs.Norms.{Taken};
ghost use Rattle.norm.specs.Skeletons.{norm_at};
ghost use Rattle.survey.specs.Surveyed.{surveyed, first_in};
ghost use Rattle.agreement.specs.Agreeing.{MayStand};

use crate::offsets::{first_input, taken};
use norm::Skeleton;
use survey::Survey;
use tally::Tally;

// Whether the word may be a row of the symbol: it has the symbol's norm, and is not one symbol of no smaller
// number.
pub fn may_stand(skeleton: &Skeleton, symbol: u8, word: &[u8]) -> bool
    ensures { Decides result (MayStand (norm_at skeleton.now) symbol word.now) }
{
    let lower = match word {
        [single] => *single < symbol,
        _ => true,
    };
    lower && skeleton.norm_of(word) == usize::from(skeleton.norm(symbol))
}

// Whether the word of a row takes the symbol's first input.
pub fn takes_first<T: Tally>(survey: &Survey<T>, symbol: u8, word: &[u8]) -> bool
    ensures { symbol < survey.now.skeleton.words.count → length word.now ≤ 64 → Decides result (Taken T.Tally.group (surveyed survey.now) word.now (first_in survey.now symbol)) }
{
    let mut letters = [0; 64];
    let first = first_input(survey, symbol, &mut letters);
    taken(survey, word, first).is_some()
}
