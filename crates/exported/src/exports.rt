// The exports.
ghost use Rattle.std.specs.Prelude.{◌≡◌, ℕ, List, ◌++◌, length, drop, Option, Result};
ghost use Rattle.tally.specs.Makes.{foot_group};
ghost use Rattle.tally.specs.declared.foot_mm.FootMm.{FootMm as foot};
ghost use Rattle.layout.specs.Reading.{checked_any};
ghost use Rattle.calls.specs.declared.answer.Answer.{Answer};
ghost use Rattle.calls.specs.declared.fault.CallFault.{CallFault};
ghost use Rattle.listing.specs.Listed.{Listed};
ghost use Rattle.exported.specs.Exports.{check_told, run_told, compare_told, foot_meaning, Ran, Compared};

use crate::calls_of::{compare_of, run_of};
use crate::told::Told;
use layout::FaultCode;
use listing::{MAX_LISTING, list_file};
use stated::check_any;

// Writes the listing of a file's bytes at the start of the buffer, answers its length, and leaves the rest.
#[unsafe(no_mangle)]
pub extern "C" fn exported_list(bytes: &[u8], out: &mut [u8; MAX_LISTING]) -> usize
    ensures { (t : List ℕ) × Listed bytes.now t × (result ≡ length t) × (out.new ≡ t ++ drop (length t) out.old) }
{
    list_file(bytes, out)
}

// Checks a file for the kinds that it states.
#[unsafe(no_mangle)]
pub extern "C" fn exported_check(bytes: &[u8]) -> Told
    ensures { result ≡ check_told (checked_any bytes.now) }
{
    match check_any(bytes) {
        Ok(_) => Told::answer(0, 0, 0),
        Err(fault) => Told::refusal(FaultCode::from(fault)),
    }
}

// Runs an input from a word of a file with foot lengths.
#[unsafe(no_mangle)]
pub extern "C" fn exported_run(bytes: &[u8], word: &[u8], input: &[u8]) -> Told
    ensures { (r : Result (Option foot) CallFault) × (result ≡ run_told r) × Ran foot_group (foot_meaning bytes.now) word.now input.now r }
{
    Told::of_run(run_of(bytes, word, input))
}

// Compares two words of a file with foot lengths, by a new comparer to which nothing is offered. Where they differ, an
// input that shows it is at the start of the first buffer; the rows are copied to the second.
#[unsafe(no_mangle)]
pub extern "C" fn exported_compare(
    bytes: &[u8],
    one: &[u8],
    two: &[u8],
    input: &mut [u8],
    rows: &mut [u8],
) -> Told
    ensures { (r : Result (Answer × ℕ) CallFault) × (result ≡ compare_told r) × Compared foot_group (foot_meaning bytes.now) one.now two.now (length input.old) input.new rows.old rows.new r }
{
    Told::of_compare(compare_of(bytes, one, two, input, rows))
}
