// The sum of a list of tallies: one text for every tally.
ghost use Rattle.std.specs.Prelude.{◌≡◌};
ghost use Rattle.tally.specs.Group.{total, TotalLaws};

use crate::Tally;

// The sum of the slice, zero where it is empty. One addition for each element.
pub fn sum<T: Tally>(xs: &[T]) -> T
    ensures value { result ≡ total T.Tally.group xs.now }
    ensures laws { TotalLaws T.Tally.group }
{
    let mut all = T::zero();
    for x in xs {
        all = all.add(*x);
    }
    all
}
