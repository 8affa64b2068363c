// Foot lengths: millimetres modulo 2^32, a group of their own.
#![tactic(auto, using(crate::specs::Makes::foot_same))]

ghost use Rattle.std.specs.Prelude.{◌≡◌, ◌^◌, ◌<◌, Decides};
ghost use Rattle.std.proofs.Common.{rules, arith};

use crate::Tally;

// A foot length in millimetres, modulo 2^32.
#[derive(Clone, Copy, Debug, PartialEq)]
pub struct FootMm {
    pub mm: u32,
    ghost fits: { mm < 2 ^ 32 },
}

impl Tally for FootMm {
    ghost use Rattle.tally.specs.Makes.{foot_group};

    ghost group = { foot_group };

    ghost equal = { first_of (Prim.search rules, Prim.grind (arith, Self.row.coded.inj)) };

    fn zero() -> FootMm {
        FootMm { mm: 0 }
    }

    fn add(self, other: FootMm) -> FootMm {
        FootMm {
            mm: self.mm.wrapping_add(other.mm),
        }
    }

    fn neg(self) -> FootMm {
        FootMm {
            mm: self.mm.wrapping_neg(),
        }
    }
}
