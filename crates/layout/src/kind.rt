// The kinds of numbers in a file.
ghost use Rattle.std.specs.Prelude.{◌≡◌, Some};
ghost use Rattle.layout.specs.Kinds.{byte_of, kind_text, unknown_text, Decodes};

use std::error::Error;
use std::fmt;

// What a number of a tally counts, as the byte of its kind says: 1, 2, 3.
#[derive(Clone, Copy, Debug, PartialEq, Eq)]
pub enum Kind {
    Foot,
    Last,
    OddOnes,
}

// A byte that stands for no kind.
#[derive(Clone, Copy, Debug, PartialEq, Eq)]
pub struct UnknownKind(pub u8);

impl TryFrom<u8> for Kind {
    type Error = UnknownKind;

    ghost try_from_gives = { Decodes };

    fn try_from(byte: u8) -> Result<Kind, UnknownKind> {
        match byte {
            1 => Ok(Kind::Foot),
            2 => Ok(Kind::Last),
            3 => Ok(Kind::OddOnes),
            _ => Err(UnknownKind(byte)),
        }
    }
}

impl From<Kind> for u8 {
    ghost from_gives = { λ kind byte. byte ≡ byte_of kind };

    fn from(kind: Kind) -> u8 {
        match kind {
            Kind::Foot => 1,
            Kind::Last => 2,
            Kind::OddOnes => 3,
        }
    }
}

impl fmt::Display for Kind {
    ghost output = { λ kind. Some (kind_text kind) };

    fn fmt<W: fmt::Write>(&self, f: &mut fmt::Formatter<W>) -> fmt::Result {
        f.write_str(match self {
            Kind::Foot => "foot",
            Kind::Last => "last",
            Kind::OddOnes => "odd",
        })
    }
}

impl fmt::Display for UnknownKind {
    ghost output = { λ unknown. Some (unknown_text unknown) };

    fn fmt<W: fmt::Write>(&self, f: &mut fmt::Formatter<W>) -> fmt::Result {
        write!(f, "no kind of number has byte {}", self.0)
    }
}

impl Error for UnknownKind {}
