// What a run is refused for.
ghost use Rattle.std.specs.Prelude.{Some};
ghost use Rattle.grammar.specs.TooLong.{too_long_text};

use crate::derivation::MAX_INPUT;
use std::error::Error;
use std::fmt;

// An input of more letters than are run: how many it has.
#[derive(Clone, Copy, Debug, PartialEq, Eq)]
pub struct InputTooLong {
    pub letters: usize,
}

impl fmt::Display for InputTooLong {
    ghost output = { λ e. Some (too_long_text e) };

    fn fmt<W: fmt::Write>(&self, f: &mut fmt::Formatter<W>) -> fmt::Result {
        let letters = self.letters;
        write!(
            f,
            "an input of {letters} letters where {MAX_INPUT} are the most"
        )
    }
}

impl Error for InputTooLong {}
