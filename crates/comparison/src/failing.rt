use walk::Blame;

// What fails on an input that is tried on a pair of words.
#[derive(Clone, Copy)]
pub(crate) enum Failing {
    // The words, with their sums, differ on it.
    Pair,
    // A row is not true on a piece of it.
    Row(Blame),
}
