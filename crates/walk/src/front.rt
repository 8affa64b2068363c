// A front of an input: its length, and the tally with which a word takes it.
#[derive(Clone, Copy, Debug, PartialEq, Eq)]
pub struct Front<T> {
    pub length: usize,
    pub tally: T,
}
