// Tallies: the values that are added up along a derivation.
#![tactic(auto)]

ghost use Rattle.std.specs.Prelude.{◌≡◌, Bool, Decides};
ghost use Rattle.tally.specs.Group.{Group};

mod foot_mm;
mod last_mm;
mod odd_ones;
mod pair;
mod sums;
#[cfg(test)]
mod tests;
mod untallied;

pub use foot_mm::FootMm;
pub use last_mm::LastMm;
pub use odd_ones::OddOnes;
pub use pair::Pair;
pub use sums::sum;
pub use untallied::Untallied;

// A plain copyable value that can be added, negated and compared: an element of an abelian group.
pub trait Tally: Copy + PartialEq {
    // Zero, addition and negation, with the laws that every make owes.
    ghost group: { Group Self };

    fn zero() -> Self
        ensures { result ≡ group.zero };

    fn add(self, other: Self) -> Self
        ensures { result ≡ group.add self other };

    fn neg(self) -> Self
        ensures { result ≡ group.neg self };

    // `==` answers true exactly for the same tally.
    ghost equal: { (x y : Self) (b : Bool) → (b ≡ Self.PartialEq.eq x y) → Decides b (x ≡ y) };
}
