// Single calls to a new comparer over the grammar of a file with foot lengths.
ghost use Rattle.std.specs.Prelude.{length};
ghost use Rattle.tally.specs.Makes.{foot_group};
ghost use Rattle.exported.specs.Exports.{foot_meaning, Ran, Compared};

use calls::{Answer, CallFault};
use comparer::Comparer;
use file_grammar::FileGrammar;
use tally::FootMm;

// Runs an input from a word of the file's grammar.
pub(crate) fn run_of(bytes: &[u8], word: &[u8], input: &[u8]) -> Result<Option<FootMm>, CallFault>
    ensures { Ran foot_group (foot_meaning bytes.now) word.now input.now result }
{
    Comparer::new(&FileGrammar::<FootMm>::new(bytes)).run(word, input)
}

// Compares two words of the file's grammar, and copies the rows that the comparison leaves.
pub(crate) fn compare_of(
    bytes: &[u8],
    one: &[u8],
    two: &[u8],
    input: &mut [u8],
    rows: &mut [u8],
) -> Result<(Answer, usize), CallFault>
    ensures { Compared foot_group (foot_meaning bytes.now) one.now two.now (length input.old) input.new rows.old rows.new result }
{
    let mut comparer = Comparer::new(&FileGrammar::<FootMm>::new(bytes));
    let answer = comparer.compare(one, two, input)?;
    let length = comparer.copy_rows(rows)?;
    Ok((answer, length))
}
