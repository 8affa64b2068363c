// Why a word was not read.
ghost use Rattle.std.specs.Prelude.{◌≡◌, Some};
ghost use Rattle.asking.specs.Spelling.{misspelled_text};
ghost use Rattle.asking.specs.declared.misspelled.Misspelled.TheVariants.{OutOfMemory};

use std::alloc::AllocFailed;
use std::error::Error;
use std::fmt;

// What is wrong with a word as it is written.
#[derive(Clone, Copy, Debug, PartialEq, Eq)]
pub enum Misspelled {
    // The byte at this place is no name of the file. Places count from 0.
    NoName(usize),
    // There is no memory for the word.
    OutOfMemory,
}

impl fmt::Display for Misspelled {
    ghost output = { λ e. Some (misspelled_text e) };

    fn fmt<W: fmt::Write>(&self, f: &mut fmt::Formatter<W>) -> fmt::Result {
        match self {
            Misspelled::NoName(place) => write!(f, "the byte at place {place} is no name"),
            Misspelled::OutOfMemory => f.write_str("out of memory"),
        }
    }
}

impl Error for Misspelled {}

impl<T: Drop> From<AllocFailed<T>> for Misspelled {
    ghost from_gives = { λ _ e. e ≡ OutOfMemory };

    fn from(_failed: AllocFailed<T>) -> Self {
        Self::OutOfMemory
    }
}
