// The lines of a listing.
ghost use Rattle.std.specs.Prelude.{◌≡◌, ◌≤◌, length, slice_index};
ghost use Rattle.std.specs.Fmt.{decimal};
ghost use Rattle.format.specs.Lent.{Wrote};
ghost use Rattle.listing.specs.Texts.{refusal_text, symbol_line};

use calls::put;
use itoa::Buffer;
use layout::FaultCode;

// Writes a number in decimal at a place, where the buffer has room for it, and answers the place behind it.
fn number_into(n: usize, out: &mut [u8], at: usize) -> usize
    ensures wrote { Wrote out.old at (decimal n) result out.new }
    ensures short { length (decimal n) ≤ 20 }
{
    put(out, at, Buffer::new().format(n).as_bytes())
}

// Writes the line of a refusal, which has at most 71 bytes.
pub(crate) fn refusal_into(code: FaultCode, out: &mut [u8], at: usize) -> usize
    ensures wrote { Wrote out.old at (refusal_text code) result out.new }
    ensures short { length (refusal_text code) ≤ 71 }
{
    let at = put(out, at, b"refused ");
    let at = number_into(usize::from(code.number), out, at);
    let at = put(out, at, b" ");
    let at = number_into(code.first, out, at);
    let at = put(out, at, b" ");
    let at = number_into(code.second, out, at);
    put(out, at, b"\n")
}

// The name of a symbol; 0 where it has none.
fn name_of(names: &[u8], symbol: u8) -> u8
    ensures { result ≡ slice_index names.now symbol }
{
    names.get(usize::from(symbol)).copied().unwrap_or(0)
}

// Writes the line of a symbol with its norm and the smallest symbol that is the same.
pub(crate) fn line_into(
    names: &[u8],
    norm: u8,
    symbol: u8,
    smallest: u8,
    out: &mut [u8],
    at: usize,
) -> usize
    ensures { Wrote out.old at (symbol_line names.now norm symbol smallest) result out.new }
{
    let at = put(out, at, &[name_of(names, symbol), b' ']);
    let at = number_into(usize::from(norm), out, at);
    put(out, at, &[b' ', name_of(names, smallest), b'\n'])
}
