// The row to blame where a word and its normal form differ.
ghost use Rattle.std.specs.Prelude.{◌≡◌, ℕ, ◌≤◌, ◌∷◌, [], length, take, MatchOption};
ghost use Rattle.grammar.specs.Meaning.{Weighted, Below};
ghost use Rattle.norm.specs.Norms.{norms};
ghost use Rattle.sheet.specs.Rowed.{shown};
ghost use Rattle.survey.specs.Surveyed.{surveyed, norm_in};
ghost use Rattle.agreement.specs.Works.{rows_over};
ghost use Rattle.agreement.specs.Agreeing.{Ready};
ghost use Rattle.witness.specs.Alike.{cut, TrueOn, TrueOnFront, NormalOn};
ghost use Rattle.walk.specs.Inputs.{most};
ghost use Rattle.walk.specs.Blames.{Untrue, piece};

use crate::blame::Blame;
use crate::fronts::front_of;
use agreement::Workspace;
use grammar::WordStack;
use norm::WORD_CAPACITY;
use sheet::SheetView;
use survey::Survey;
use tally::Tally;

// The ranks of symbols are below this: 32 symbols of each norm from 0 to 64.
const RANKS: usize = 2_080;

// How long a front of the input is on which the symbol's row is not true: the front that the symbol takes, or the
// one that the word takes. None where the row is true on both.
fn untrue_front<T: Tally>(
    survey: &Survey<T>,
    symbol: u8,
    row: &[u8],
    offset: T,
    input: &[u8],
) -> Option<usize>
    ensures { length input.now ≤ most → MatchOption result ((TrueOnFront T.Tally.group (surveyed survey.now) symbol (record { word = row.now; tally = offset }) (cut (surveyed survey.now) (symbol ∷ []) input.now)) × (TrueOnFront T.Tally.group (surveyed survey.now) symbol (record { word = row.now; tally = offset }) (cut (surveyed survey.now) row.now input.now))) (λ n. (n ≤ length input.now) × (¬ TrueOn T.Tally.group (surveyed survey.now) symbol (record { word = row.now; tally = offset }) (take n input.now))) }
{
    let own = front_of(survey, &[symbol], input);
    let other = front_of(survey, row, input);
    match (own, other) {
        (None, None) => None,
        (Some(own), None) => Some(own.length),
        (None, Some(other)) => Some(other.length),
        (Some(own), Some(other)) => {
            let even = own.length == other.length && own.tally == offset.add(other.tally);
            (!even).then_some(own.length)
        }
    }
}

// Walks along the input with a word whose norm is at most 512: a symbol without a row uses up the front that it
// takes, and one with a row gives way to the row's word. The first row that is not true on a front of what is left
// is to blame. Where there is none the word and its normal form do not differ on the input.
pub fn blamed<T: Tally>(
    survey: &Survey<T>,
    work: &Workspace<T>,
    rows: SheetView<'_>,
    word: &[u8],
    input: &[u8],
) -> Option<Blame>
    ensures { Ready T.Tally.group survey.now (shown rows.entry) work.now → Below survey.now.skeleton.words.count word.now → norms (norm_in survey.now) word.now ≤ 512 → length input.now ≤ most → MatchOption result (NormalOn T.Tally.group (surveyed survey.now) (rows_over T.Tally.group survey.now (shown rows.entry)) word.now input.now) (λ b. Untrue T.Tally.group (surveyed survey.now) (rows_over T.Tally.group survey.now (shown rows.entry)) b.symbol (piece b input.now)) }
{
    let mut left = WordStack::<WORD_CAPACITY>::new();
    left.push_word(word);
    let mut rest = input;
    // A step uses up a letter, or has a first symbol of lower rank.
    let steps = input.len().saturating_add(1).saturating_mul(RANKS);
    for _ in 0..steps {
        let symbol = left.pop()?;
        let Some(row) = rows.row(symbol) else {
            let front = front_of(survey, &[symbol], rest)?;
            rest = rest.get(front.length..).unwrap_or(&[]);
            continue;
        };
        let row = row.as_slice();
        if let Some(length) = untrue_front(survey, symbol, row, work.offset(symbol), rest) {
            let from = input.len() - rest.len();
            return Some(Blame {
                symbol,
                from,
                length,
            });
        }
        left.push_word(row);
    }
    None
}
