// Reading the front of an input.
ghost use Rattle.std.specs.Prelude.{◌≡◌, ◌≤◌, ◌<◌, length, take, IfOk};
ghost use Rattle.std.specs.Io.KnownBytes.{Consumes, IsAtEnd};

use std::io::{self, Read};

// Reads until the buffer is full or no more bytes come, and answers how many came: the bytes at the start of the
// buffer are the first ones of the input; where they are fewer than the buffer, they are all of it.
pub(crate) fn read_front<R: Read>(reader: &mut R, buffer: &mut [u8]) -> io::Result<usize>
    ensures within { IfOk result (λ n. n ≤ length buffer.new) }
    ensures front { IfOk result (λ n. Consumes (R.Read.remaining reader.old) (R.Read.remaining reader.new) (take n buffer.new)) }
    ensures all { IfOk result (λ n. n < length buffer.new → IsAtEnd (R.Read.remaining reader.new)) }
{
    let mut len = 0;
    while len < buffer.len() {
        let count = reader.read(&mut buffer[len..])?;
        if count == 0 {
            break;
        }
        len += count;
    }
    Ok(len)
}
