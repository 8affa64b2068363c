// Untallied: the tally with one value.
ghost use Rattle.std.proofs.Common.{rules};

use crate::Tally;

// No tally at all: one value.
#[derive(Clone, Copy, Debug, PartialEq)]
pub struct Untallied;

impl Tally for Untallied {
    ghost use Rattle.tally.specs.Makes.{untallied_group};

    ghost group = { untallied_group };

    ghost equal = { Prim.search rules };

    fn zero() -> Untallied {
        Untallied
    }

    fn add(self, _other: Untallied) -> Untallied {
        Untallied
    }

    fn neg(self) -> Untallied {
        Untallied
    }
}
