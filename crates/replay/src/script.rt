// The lines of a script.
use crate::call::Call;
use crate::grammars::Source;
use crate::kinds::Kinds;
use crate::misread::Misread;
use crate::values::bytes;
use std::alloc::{AllocError, Global};

// A line of a script.
#[derive(Drop)]
pub enum Line {
    // The whole line.
    Case(String),
    Twin,
    Grammar(Source),
    // A file and the kinds that it is checked for.
    Check(Kinds, Vec<u8>),
    Call(Call),
    // None of these.
    Malformed,
}

impl Line {
    // Reads a line, without its line feed.
    fn read(heap: Global, text: &str) -> Result<Line, Misread> {
        let fields: Vec<&str> = text.split(' ').collect(heap)?;
        match fields.as_slice() {
            ["case", _] => Ok(Line::Case(String::from_str(heap, text)?)),
            ["grammar", "twin"] => Ok(Line::Twin),
            ["grammar", "file", file] => Ok(Line::Grammar(Source::read_file(heap, file)?)),
            ["grammar", "list", count, kinds, records] => {
                Ok(Line::Grammar(Source::read_list(heap, count, kinds, records)?))
            }
            ["check", kinds, file] => Ok(Line::Check(kinds.parse()?, bytes(heap, file)?)),
            fields => Ok(Line::Call(Call::read(heap, fields)?)),
        }
    }

    // Whether what was compared over ends before it.
    pub fn begins(&self) -> bool {
        matches!(self, Line::Case(_) | Line::Twin | Line::Grammar(_))
    }
}

// The line of bytes up to their line feed; a line that is none of a script's, as one that is no text, is malformed.
fn read_line(heap: Global, bytes: &[u8]) -> Result<Line, AllocError> {
    let bytes = bytes.strip_suffix(b"\n").unwrap_or(bytes);
    let Ok(text) = std::str::from_utf8(bytes) else {
        return Ok(Line::Malformed);
    };
    match Line::read(heap, text) {
        Ok(line) => Ok(line),
        Err(Misread::Malformed) => Ok(Line::Malformed),
        Err(Misread::OutOfMemory) => Err(AllocError),
    }
}

// The lines of a text.
pub fn lines(heap: Global, text: &[u8]) -> Result<Vec<Line>, AllocError> {
    let mut lines = Vec::new(heap);
    for bytes in text.split_inclusive(|byte| *byte == b'\n') {
        lines.push(read_line(heap, bytes)?)?;
    }
    Ok(lines)
}
