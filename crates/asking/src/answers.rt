// The text of an answer.
ghost use Rattle.std.specs.Prelude.{◌≡◌, ℕ, ◌≤◌, List, ◌++◌, take, length, Option, OnOk, IfOk};
ghost use Rattle.std.specs.Option.{option_map};
ghost use Rattle.rows.specs.Sheets.{Ranked, weighed};
ghost use Rattle.survey.specs.Surveyed.{surveyed, norm_in, first_in};
ghost use Rattle.survey.specs.declared.table.Survey.{Survey};
ghost use Rattle.calls.specs.Histories.{Event};
ghost use Rattle.comparer.specs.Lawful.{HistoryOver};
ghost use Rattle.comparer.specs.Comparers.{rows_of, Over, row_read};
ghost use Rattle.asking.specs.Texts.{input_text, spaced, verdict_text, line_text, rows_text, same_text as text_of_same, different_text as text_of_different};
ghost use Rattle.asking.specs.declared.outcome.Outcome.TheVariants.{Same, Different};

use crate::labels::Labels;
use crate::numbers::{numbers_of, push_number};
use crate::outcome::{Answered, Outcome};
use comparer::Comparer;
use format::FileTally;
use sheet::ROWS;
use std::alloc::{AllocError, Global};

// Writes numbers, each behind a space.
fn push_spaced(text: &mut Vec<u8>, numbers: &[u32]) -> Result<(), AllocError>
    ensures { OnOk result (text.new.items ≡ text.old.items ++ spaced numbers.now) }
{
    for number in numbers {
        text.extend_from_slice(b" ")?;
        push_number(text, *number)?;
    }
    Ok(())
}

// Writes the line of a word, as it was given: whether it takes the input, and with which numbers.
fn push_verdict<T: FileTally>(
    heap: Global,
    text: &mut Vec<u8>,
    word: &[u8],
    verdict: Option<T>,
) -> Result<(), AllocError>
    ensures { length T.FileTally.kinds ≤ 255 → OnOk result (text.new.items ≡ text.old.items ++ verdict_text word.now (option_map T.FileTally.numbers verdict)) }
{
    text.extend_from_slice(word)?;
    let Some(tally) = verdict else {
        return text.extend_from_slice(b": not taken\n");
    };
    text.extend_from_slice(b": taken")?;
    push_spaced(text, &numbers_of(heap, tally)?)?;
    text.extend_from_slice(b"\n")
}

// The letters of an input; a minus sign for none.
fn shown(input: &[u8]) -> &[u8]
    ensures { result.now ≡ input_text input.now }
{
    if input.is_empty() { b"-" } else { input }
}

// Writes the line of a symbol's row, if it has one.
fn push_told<T: FileTally>(
    heap: Global,
    text: &mut Vec<u8>,
    labels: &Labels<'_>,
    symbol: u8,
    row: Option<(&[u8], T)>,
) -> Result<(), AllocError>
    ensures { length T.FileTally.kinds ≤ 255 → OnOk result (text.new.items ≡ text.old.items ++ line_text labels.now T.FileTally.numbers symbol (option_map row_read row.entry)) }
{
    match row {
        Some((word, offset)) => {
            let numbers = numbers_of(heap, offset)?;
            labels.push_row(text, symbol, word, &numbers)
        }
        None => Ok(()),
    }
}

// Writes the line of each row of a comparer, by symbol.
fn push_rows<T: FileTally>(
    heap: Global,
    text: &mut Vec<u8>,
    labels: &Labels<'_>,
    comparer: &Comparer<T>,
) -> Result<(), AllocError>
    ensures { length T.FileTally.kinds ≤ 255 → (s : Survey T) → Over comparer.now s → Ranked s.skeleton.words.count (norm_in s) (rows_of comparer.now) → OnOk result (text.new.items ≡ text.old.items ++ rows_text labels.now T.FileTally.numbers (weighed T.Tally.group (surveyed s) (first_in s) (rows_of comparer.now)) 32) }
{
    for symbol in 0..ROWS {
        push_told(heap, text, labels, symbol, comparer.row(symbol))?;
    }
    Ok(())
}

// The text of a "same": the line that says so, and the rows.
fn same_text<T: FileTally>(
    heap: Global,
    labels: &Labels<'_>,
    comparer: &Comparer<T>,
) -> Result<Vec<u8>, AllocError>
    ensures { length T.FileTally.kinds ≤ 255 → (s : Survey T) → Over comparer.now s → Ranked s.skeleton.words.count (norm_in s) (rows_of comparer.now) → IfOk result (λ v. v.items ≡ text_of_same labels.now T.FileTally.numbers (weighed T.Tally.group (surveyed s) (first_in s) (rows_of comparer.now))) }
{
    let mut text = Vec::from_slice(heap, b"same\n")?;
    push_rows(heap, &mut text, labels, comparer)?;
    Ok(text)
}

// The text of a "different": the input, and the verdict of each word.
fn different_text<T: FileTally>(
    heap: Global,
    input: &[u8],
    one: &[u8],
    first: Option<T>,
    two: &[u8],
    second: Option<T>,
) -> Result<Vec<u8>, AllocError>
    ensures { length T.FileTally.kinds ≤ 255 → IfOk result (λ v. v.items ≡ text_of_different input.now one.now (option_map T.FileTally.numbers first) two.now (option_map T.FileTally.numbers second)) }
{
    let mut text = Vec::from_slice(heap, b"different ")?;
    text.extend_from_slice(shown(input))?;
    text.extend_from_slice(b"\n")?;
    push_verdict(heap, &mut text, one, first)?;
    push_verdict(heap, &mut text, two, second)?;
    Ok(text)
}

// The text of an answer about two words as they were given, with an input in the buffer where they differ: `same` and
// the rows, to which calls led, or `different` with the input and the verdict of each word.
pub fn answer_text<T: FileTally>(
    heap: Global,
    labels: &Labels<'_>,
    one: &[u8],
    two: &[u8],
    answered: &Answered<T>,
    out: &[u8],
) -> Result<Vec<u8>, AllocError>
    ensures same { length T.FileTally.kinds ≤ 255 → answered.now.outcome ≡ Same → (s : Survey T) → Over answered.now.comparer s → (es : List (Event T)) → HistoryOver T.Tally.group s es (rows_of answered.now.comparer) → IfOk result (λ v. v.items ≡ text_of_same labels.now T.FileTally.numbers (weighed T.Tally.group (surveyed s) (first_in s) (rows_of answered.now.comparer))) }
    ensures different { length T.FileTally.kinds ≤ 255 → (n : ℕ) (p q : Option T) → answered.now.outcome ≡ Different n p q → IfOk result (λ v. v.items ≡ text_of_different (take n out.now) one.now (option_map T.FileTally.numbers p) two.now (option_map T.FileTally.numbers q)) }
{
    match answered.outcome {
        Outcome::Same => same_text(heap, labels, &answered.comparer),
        Outcome::Different {
            length,
            one: first,
            two: second,
        } => {
            let input = &out[..length.min(out.len())];
            different_text(heap, input, one, first, two, second)
        }
    }
}
