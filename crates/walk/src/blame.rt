// A symbol, and a piece of an input on which its row is not true.
#[derive(Clone, Copy, Debug, PartialEq, Eq)]
pub struct Blame {
    pub symbol: u8,
    pub from: usize,
    pub length: usize,
}
