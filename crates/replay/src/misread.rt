// Why a line was not read.
use hex::FromHexError;
use layout::UnknownKind;
use std::alloc::{AllocError, AllocFailed};
use std::error::Error;
use std::fmt;
use std::num::ParseIntError;

// Why a line was not read.
#[derive(Clone, Copy, Debug, PartialEq, Eq)]
pub enum Misread {
    // It is none of the lines of a script.
    Malformed,
    // There is no memory for what it says.
    OutOfMemory,
}

impl fmt::Display for Misread {
    fn fmt<W: fmt::Write>(&self, f: &mut fmt::Formatter<W>) -> fmt::Result {
        match self {
            Misread::Malformed => write!(f, "malformed"),
            Misread::OutOfMemory => AllocError.fmt(f),
        }
    }
}

impl Error for Misread {}

impl From<ParseIntError> for Misread {
    fn from(_error: ParseIntError) -> Misread {
        Misread::Malformed
    }
}

impl From<UnknownKind> for Misread {
    fn from(_error: UnknownKind) -> Misread {
        Misread::Malformed
    }
}

impl From<FromHexError> for Misread {
    fn from(error: FromHexError) -> Misread {
        match error {
            FromHexError::OutOfMemory => Misread::OutOfMemory,
            _ => Misread::Malformed,
        }
    }
}

impl From<AllocError> for Misread {
    fn from(_error: AllocError) -> Misread {
        Misread::OutOfMemory
    }
}

impl<T: Drop> From<AllocFailed<T>> for Misread {
    fn from(_failed: AllocFailed<T>) -> Misread {
        Misread::OutOfMemory
    }
}
