// Offsets of rows.
ghost use Rattle.std.specs.Prelude.{◌≡◌, ◌+◌, ◌*◌, ◌<◌, ◌≤◌, length};
ghost use Rattle.grammar.specs.Takes.{takes};
ghost use Rattle.rows.specs.Sheets.{difference as more_than, offset as offset_of};
ghost use Rattle.survey.specs.Surveyed.{surveyed, first_in};

use survey::Survey;
use tally::Tally;

// The tally with which the word takes the input; none where it does not. 512 symbols have room where the
// word and three symbols for each letter come to no more.
pub(crate) fn taken<T: Tally>(survey: &Survey<T>, word: &[u8], input: &[u8]) -> Option<T>
    ensures { length word.now + 3 * length input.now ≤ 512 → result ≡ takes T.Tally.group (surveyed survey.now) word.now input.now }
{
    let run = survey.run(word, input)?;
    (run.left.len() == 0).then_some(run.tally)
}

// The first input of the symbol, written into the buffer.
pub fn first_input<'a, T: Tally>(
    survey: &Survey<T>,
    symbol: u8,
    letters: &'a mut [u8; 64],
) -> &'a [u8]
    ensures { symbol < survey.now.skeleton.words.count → result.now ≡ first_in survey.now symbol }
{
    let skeleton = survey.skeleton();
    let len = skeleton.first_input(&[symbol], letters).unwrap_or(0);
    letters.get(..len).unwrap_or(&[])
}

// What the first tally is more than the second; zero where one of them is not there.
fn difference<T: Tally>(own: Option<T>, other: Option<T>) -> T
    ensures { result ≡ more_than T.Tally.group own other }
{
    match (own, other) {
        (Some(own), Some(other)) => own.add(other.neg()),
        _ => T::zero(),
    }
}

// The offset of a row: the tally of the symbol's first input by the symbol, less its tally by the word.
pub fn offset<T: Tally>(survey: &Survey<T>, symbol: u8, word: &[u8]) -> T
    ensures { symbol < survey.now.skeleton.words.count → length word.now ≤ 64 → result ≡ offset_of T.Tally.group (surveyed survey.now) (first_in survey.now) symbol word.now }
{
    let mut letters = [0; 64];
    let first = first_input(survey, symbol, &mut letters);
    difference(taken(survey, &[symbol], first), taken(survey, word, first))
}
