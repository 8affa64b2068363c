// Calls on a comparer, as the lines of a script give them.
use crate::misread::Misread;
use crate::values::{bytes, input, word};
use std::alloc::Global;

// A call. A room is the length of the buffer that is lent.
#[derive(Drop)]
pub enum Call {
    Compare {
        one: Vec<u8>,
        two: Vec<u8>,
        room: usize,
    },
    Offer(Vec<u8>),
    Clear,
    Run {
        word: Vec<u8>,
        input: Vec<u8>,
    },
    Copy(usize),
    Write {
        names: Vec<u8>,
        room: usize,
    },
}

impl Call {
    // The call of the fields of a line.
    pub fn read(heap: Global, fields: &[&str]) -> Result<Call, Misread> {
        match fields {
            ["compare", one, two, room] => Ok(Call::Compare {
                one: word(heap, one)?,
                two: word(heap, two)?,
                room: room.parse()?,
            }),
            ["offer", section] => Ok(Call::Offer(bytes(heap, section)?)),
            ["clear"] => Ok(Call::Clear),
            ["run", symbols, letters] => Ok(Call::Run {
                word: word(heap, symbols)?,
                input: input(heap, letters)?,
            }),
            ["copy", room] => Ok(Call::Copy(room.parse()?)),
            ["write", names, room] => Ok(Call::Write {
                names: bytes(heap, names)?,
                room: room.parse()?,
            }),
            _ => Err(Misread::Malformed),
        }
    }
}
