// The smallest symbol that is the same as a symbol.
ghost use Rattle.std.specs.Prelude.{ℕ, [], ◌∷◌, ◌<◌, ◌≤◌, Decides};
ghost use Rattle.grammar.specs.Takes.{Same};
ghost use Rattle.survey.specs.Surveyed.{surveyed};
ghost use Rattle.survey.specs.declared.table.Survey.{Survey};
ghost use Rattle.listing.specs.Listed.{Smallest};
ghost use Rattle.listing.specs.Found.{Led, Found};

use calls::Answer;
use comparer::Comparer;
use grammar::MAX_INPUT;
use tally::Tally;

// Whether two symbols take the same inputs with the same tallies.
fn is_same<T: Tally>(
    comparer: &mut Comparer<T>,
    one: u8,
    two: u8,
    room: &mut [u8; MAX_INPUT],
) -> bool
    ensures { (s : Survey T) → Led T.Tally.group s comparer.old → one < s.skeleton.words.count → two < s.skeleton.words.count → Led T.Tally.group s comparer.new × Decides result (Same T.Tally.group (surveyed s) (one ∷ []) (two ∷ [])) }
{
    match comparer.compare(&[one], &[two], room) {
        Ok(Answer::Same) => true,
        Ok(Answer::Different(_)) => false,
        // Symbols of the grammar, and room for an input, are not refused.
        Err(_) => false,
    }
}

// The smallest symbol that is the same as the symbol, where those of all smaller symbols are found. It is compared with
// each of these that is not the same as a smaller one still.
pub(crate) fn smallest<T: Tally>(
    comparer: &mut Comparer<T>,
    symbol: u8,
    found: &[u8; 32],
    room: &mut [u8; MAX_INPUT],
) -> u8
    requires { symbol ≤ 32 }
    ensures { (s : Survey T) → Led T.Tally.group s comparer.old → symbol < s.skeleton.words.count → Found T.Tally.group (surveyed s) symbol found.now → Led T.Tally.group s comparer.new × Smallest T.Tally.group (surveyed s) symbol result }
{
    for other in 0..symbol {
        if found[usize::from(other)] == other && is_same(comparer, symbol, other, room) {
            return other;
        }
    }
    symbol
}
