// The listing of an input.
ghost use Rattle.std.specs.Prelude.{◌≡◌, ℕ, ◌≤◌, List, ◌++◌, length, drop, IfOk, IfSome, OnErr};
ghost use Rattle.std.specs.Io.KnownBytes.{Consumes};
ghost use Rattle.layout.specs.Laws.{Bytes};
ghost use Rattle.listing.specs.Listed.{Listed};

use crate::front::read_front;
use crate::listing::{MAX_LISTING, list_file};
use std::io::{self, Read};

// How many bytes are read: a file has at most 14,565, and one more tells that bytes follow it.
const MAX_READ: usize = 14_566;

// Reads a file, and puts its listing at the start of the buffer; answers its length and leaves the rest. An input of
// any length is answered as all its bytes would be; what lies behind the first 14,566 is not read. Where it cannot be
// read the buffer is as it was.
pub fn list_input<R: Read>(reader: &mut R, out: &mut [u8; MAX_LISTING]) -> io::Result<usize>
    ensures read { IfOk result (λ n. (bs : List ℕ) × (t : List ℕ) × (length bs ≤ 14566) × Consumes (R.Read.remaining reader.old) (R.Read.remaining reader.new) bs × Listed bs t × (n ≡ length t) × (out.new ≡ t ++ drop (length t) out.old)) }
    ensures whole { IfOk result (λ n. IfSome (R.Read.remaining reader.old) (λ bs. Bytes bs → (t : List ℕ) × Listed bs t × (n ≡ length t) × (out.new ≡ t ++ drop (length t) out.old))) }
    ensures unread { OnErr result (out.new ≡ out.old) }
{
    let mut bytes = [0; MAX_READ];
    let len = read_front(reader, &mut bytes)?;
    Ok(list_file(&bytes[..len.min(MAX_READ)], out))
}
