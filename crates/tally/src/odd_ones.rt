// Odd ones: 32 bits joined by exclusive or.
#![tactic(auto, using(crate::specs::Makes::odd_same))]

ghost use Rattle.std.specs.Prelude.{◌≡◌, ◌^◌, ◌<◌, Decides};
ghost use Rattle.std.proofs.Common.{rules, arith};

use crate::Tally;

// Bit k tells whether an odd number of the tallies that were added had bit k.
#[derive(Clone, Copy, Debug, PartialEq)]
pub struct OddOnes {
    pub bits: u32,
    ghost fits: { bits < 2 ^ 32 },
}

impl Tally for OddOnes {
    ghost use Rattle.tally.specs.Makes.{odd_group};

    ghost group = { odd_group };

    ghost equal = { first_of (Prim.search rules, Prim.grind (arith, Self.row.coded.inj)) };

    fn zero() -> OddOnes {
        OddOnes { bits: 0 }
    }

    fn add(self, other: OddOnes) -> OddOnes {
        OddOnes {
            bits: self.bits ^ other.bits,
        }
    }

    // Each bit is its own negation.
    fn neg(self) -> OddOnes {
        OddOnes { bits: self.bits }
    }
}
