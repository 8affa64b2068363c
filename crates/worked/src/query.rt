// A line as it was read, or what is wrong with it.
ghost use Rattle.std.specs.Prelude.{◌≡◌};
ghost use Rattle.worked.specs.declared.query.QueryError.TheVariants.{OutOfMemory};

use std::alloc::{AllocError, AllocFailed};
use std::error::Error;
use std::fmt;

// A line WORD INPUT.
#[derive(Drop)]
pub struct Query<'a> {
    pub word: Vec<u8>,
    pub input: &'a [u8],
}

// Why a line was not read.
#[derive(Clone, Copy, Debug, PartialEq, Eq)]
pub enum QueryError {
    // There are not two fields with one space between.
    NoFields,
    // The first field has a byte that is no symbol's name.
    NoWord,
    // There is no memory for the word.
    OutOfMemory,
}

impl fmt::Display for QueryError {
    fn fmt<W: fmt::Write>(&self, f: &mut fmt::Formatter<W>) -> fmt::Result {
        match self {
            QueryError::NoFields => write!(f, "not WORD INPUT with one space between"),
            QueryError::NoWord => write!(f, "a name that is none of b c d e f k q"),
            QueryError::OutOfMemory => AllocError.fmt(f),
        }
    }
}

impl Error for QueryError {}

impl<T: Drop> From<AllocFailed<T>> for QueryError {
    ghost from_gives = { λ _ e. e ≡ OutOfMemory };

    fn from(_failed: AllocFailed<T>) -> Self {
        Self::OutOfMemory
    }
}
