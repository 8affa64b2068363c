ghost use Rattle.std.specs.Prelude.{◌≡◌, length};

use grammar::PLACES;
use norm::Skeleton;

// An accepted grammar, taken up whole: the words of its rules with norms and first letters, and the
// tallies of its rules, each at its rule's place. They stand apart, as no ghost field could speak of
// the words in an array of structs with a type parameter.
#[derive(Drop)]
pub struct Survey<T> {
    pub(crate) skeleton: Skeleton,
    pub(crate) tallies: [T; PLACES],
    ghost room: { length tallies ≡ 832 },
}
