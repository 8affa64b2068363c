// How a fault is told.
ghost use Rattle.std.specs.Prelude.{◌≡◌, Some};
ghost use Rattle.layout.specs.Faults.{code_of, code_text};

use crate::fault::{Fault, FaultCode, Layer};
use std::fmt;

// The fault's number, its layer, and its two numbers.
impl From<Fault> for FaultCode {
    ghost from_gives = { λ fault code. code ≡ code_of fault };

    fn from(fault: Fault) -> FaultCode {
        // A fault is told with two numbers, always: 0 where it has no such number.
        let (number, first) = match fault {
            Fault::Short(bytes) => (1, bytes),
            Fault::Limit(place) => (2, place),
            Fault::Unallowed(place) => (3, place),
            Fault::Order(place) => (4, place),
            Fault::Symbol(place) => (5, place),
            Fault::Trailing(place) => (6, place),
            Fault::Kinds => (7, 0),
        };
        let layer = Layer::File;
        FaultCode {
            number,
            layer,
            first,
            second: 0,
        }
    }
}

// The number and the two numbers, with single spaces.
impl fmt::Display for FaultCode {
    ghost output = { λ code. Some (code_text code) };

    fn fmt<W: fmt::Write>(&self, f: &mut fmt::Formatter<W>) -> fmt::Result {
        write!(f, "{} {} {}", self.number, self.first, self.second)
    }
}
