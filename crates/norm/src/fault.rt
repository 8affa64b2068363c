// What can be wrong with norms.

// A symbol that the norms refuse.
#[derive(Clone, Copy, Debug, PartialEq, Eq)]
pub enum NormFault {
    // The smallest symbol that takes no input.
    NoInput(u8),
    // Where each takes one: the smallest symbol whose norm passes the limit.
    TooLong(u8),
}
