// Last lengths: millimetres modulo 2^32, a group of their own. A twin of foot lengths and no parameter of
// one type, since two structs with laws of their own are fixed, so that the two never meet.
#![tactic(auto, using(crate::specs::Makes::last_same))]

ghost use Rattle.std.specs.Prelude.{◌≡◌, ◌^◌, ◌<◌, Decides};
ghost use Rattle.std.proofs.Common.{rules, arith};

use crate::Tally;

// A last length in millimetres, modulo 2^32. A type of its own, so that it never meets a foot length.
#[derive(Clone, Copy, Debug, PartialEq)]
pub struct LastMm {
    pub mm: u32,
    ghost fits: { mm < 2 ^ 32 },
}

impl Tally for LastMm {
    ghost use Rattle.tally.specs.Makes.{last_group};

    ghost group = { last_group };

    ghost equal = { first_of (Prim.search rules, Prim.grind (arith, Self.row.coded.inj)) };

    fn zero() -> LastMm {
        LastMm { mm: 0 }
    }

    fn add(self, other: LastMm) -> LastMm {
        LastMm {
            mm: self.mm.wrapping_add(other.mm),
        }
    }

    fn neg(self) -> LastMm {
        LastMm {
            mm: self.mm.wrapping_neg(),
        }
    }
}
