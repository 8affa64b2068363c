// How the parts of an answer are shown.
use calls::{CallFault, MIN_COPY};
use comparer::Comparer;
use format::FileTally;
use layout::{FaultCode, Layer};
use std::fmt;

// Bytes in hexadecimal, a minus sign for none.
#[derive(Clone, Copy)]
pub struct Hexadecimal<'a>(pub &'a [u8]);

impl<'a> fmt::Display for Hexadecimal<'a> {
    fn fmt<W: fmt::Write>(&self, f: &mut fmt::Formatter<W>) -> fmt::Result {
        if self.0.is_empty() {
            return f.write_str("-");
        }
        for byte in self.0 {
            write!(f, "{byte:02x}")?;
        }
        Ok(())
    }
}

// Letters, a minus sign for none.
#[derive(Clone, Copy)]
pub struct Letters<'a>(pub &'a [u8]);

impl<'a> fmt::Display for Letters<'a> {
    fn fmt<W: fmt::Write>(&self, f: &mut fmt::Formatter<W>) -> fmt::Result {
        if self.0.is_empty() {
            return f.write_str("-");
        }
        f.write_str(std::str::from_utf8(self.0).unwrap_or("?"))
    }
}

// The rows section of a comparer, a question mark where the grammar is refused.
#[derive(Drop)]
pub struct Rows {
    bytes: [u8; MIN_COPY],
    len: Result<usize, CallFault>,
}

// The rows section of a comparer.
pub fn copied_rows<T: FileTally>(comparer: &Comparer<T>) -> Rows {
    let mut bytes = [0; MIN_COPY];
    let len = comparer.copy_rows(&mut bytes);
    Rows { bytes, len }
}

impl fmt::Display for Rows {
    fn fmt<W: fmt::Write>(&self, f: &mut fmt::Formatter<W>) -> fmt::Result {
        match self.len {
            Ok(len) => Hexadecimal(self.bytes.get(..len).unwrap_or(&[])).fmt(f),
            Err(_) => f.write_str("?"),
        }
    }
}

// A refusal: `refused`, the layer, the number and the two numbers.
#[derive(Clone, Copy)]
pub struct Refusal(pub FaultCode);

impl fmt::Display for Refusal {
    fn fmt<W: fmt::Write>(&self, f: &mut fmt::Formatter<W>) -> fmt::Result {
        let code = self.0;
        let layer = match code.layer {
            Layer::File => "file",
            Layer::Grammar => "grammar",
            Layer::Comparer => "comparer",
        };
        write!(f, "refused {layer} {code}")
    }
}

// The numbers of a tally, a minus sign for no kind.
#[derive(Clone, Copy)]
pub struct Numbers<T>(pub T);

impl<T: FileTally> fmt::Display for Numbers<T> {
    fn fmt<W: fmt::Write>(&self, f: &mut fmt::Formatter<W>) -> fmt::Result {
        match (self.0.number(0), self.0.number(1)) {
            (Some(first), Some(second)) => write!(f, "{first} {second}"),
            (Some(first), None) => write!(f, "{first}"),
            (None, _) => f.write_str("-"),
        }
    }
}
