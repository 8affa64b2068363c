// The numbers of a tally, and numbers as they are written.
ghost use Rattle.std.specs.Prelude.{◌≡◌, ◌≤◌, ◌++◌, length, decimal, IfOk, OnOk};

use format::FileTally;
use itoa::Buffer;
use std::alloc::{AllocError, Global};

// The numbers of a tally, in the order of its kinds; a file has at most two.
pub fn numbers_of<T: FileTally>(heap: Global, tally: T) -> Result<Vec<u32>, AllocError>
    ensures { length T.FileTally.kinds ≤ 255 → IfOk result (λ v. v.items ≡ T.FileTally.numbers tally) }
{
    let mut numbers = Vec::new(heap);
    for at in 0..T::kind_count() {
        if let Some(number) = tally.number(at) {
            numbers.push(number)?;
        }
    }
    Ok(numbers)
}

// Writes a number.
pub(crate) fn push_number(text: &mut Vec<u8>, number: u32) -> Result<(), AllocError>
    ensures { OnOk result (text.new.items ≡ text.old.items ++ decimal number) }
{
    let mut buffer = Buffer::new();
    text.extend_from_slice(buffer.format(number).as_bytes())
}
