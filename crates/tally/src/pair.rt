// Pairs of any two tallies, part by part.
ghost use Rattle.std.proofs.Common.{rules};

use crate::Tally;

// Two tallies side by side.
#[derive(Clone, Copy, Debug, PartialEq)]
pub struct Pair<A, B>(pub A, pub B);

impl<X: Tally, Y: Tally> Tally for Pair<X, Y> {
    ghost use Rattle.tally.specs.Makes.{pair_group};

    ghost group = { pair_group X.Tally.group Y.Tally.group };

    ghost equal = { Prim.search rules };

    fn zero() -> Pair<X, Y> {
        Pair(X::zero(), Y::zero())
    }

    fn add(self, other: Pair<X, Y>) -> Pair<X, Y> {
        Pair(self.0.add(other.0), self.1.add(other.1))
    }

    fn neg(self) -> Pair<X, Y> {
        Pair(self.0.neg(), self.1.neg())
    }
}
