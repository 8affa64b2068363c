// What calls check of the words and buffers that they are given.
ghost use Rattle.std.specs.Prelude.{◌≡◌, length};
ghost use Rattle.calls.specs.Refusals.{too_long, strays, compare_fault, run_fault, copy_fault, unless};

use crate::fault::CallFault;
use grammar::MAX_INPUT;

// The most symbols of a given word.
pub const MAX_GIVEN: usize = 8;

// The room that a copy needs: a count, and 31 rows of a symbol, a length and 64 symbols.
pub const MIN_COPY: usize = 2_047;

// A word has at most 8 symbols.
fn check_length(number: u8, word: &[u8]) -> Result<(), CallFault>
    ensures { result ≡ unless (too_long number word.now) }
{
    let length = word.len();
    if length > MAX_GIVEN {
        return Err(CallFault::LongWord {
            word: number,
            length,
        });
    }
    Ok(())
}

// Its symbols are below the count.
fn check_symbols(number: u8, word: &[u8], count: u8) -> Result<(), CallFault>
    ensures { result ≡ unless (strays number count word.now) }
{
    match word.iter().position(|symbol| *symbol >= count) {
        Some(place) => Err(CallFault::StraySymbol {
            word: number,
            place,
        }),
        None => Ok(()),
    }
}

// What a comparison is refused for, over a grammar of so many symbols, with a buffer of so many bytes.
pub fn check_compare(count: u8, one: &[u8], two: &[u8], room: usize) -> Result<(), CallFault>
    ensures { result ≡ unless (compare_fault count one.now two.now room) }
{
    check_length(1, one)?;
    check_length(2, two)?;
    check_symbols(1, one, count)?;
    check_symbols(2, two, count)?;
    if room < MAX_INPUT {
        return Err(CallFault::ShortBuffer(room));
    }
    Ok(())
}

// What a run is refused for, over a grammar of so many symbols.
pub fn check_run(count: u8, word: &[u8], input: &[u8]) -> Result<(), CallFault>
    ensures { result ≡ unless (run_fault count word.now input.now) }
{
    check_length(1, word)?;
    check_symbols(1, word, count)?;
    let length = input.len();
    if length > MAX_INPUT {
        return Err(CallFault::LongInput(length));
    }
    Ok(())
}

// What a copy to a buffer of so many bytes is refused for.
pub fn check_copy(room: usize) -> Result<(), CallFault>
    ensures { result ≡ unless (copy_fault room) }
{
    if room < MIN_COPY {
        return Err(CallFault::ShortCopy(room));
    }
    Ok(())
}
