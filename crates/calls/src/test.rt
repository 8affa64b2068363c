// What an offered row is tested for by itself, in this order.
#[derive(Clone, Copy, Debug, PartialEq, Eq)]
pub enum Test {
    // Its symbol has no row yet.
    Free,
    // Its word has the symbol's norm, and is not one symbol of no smaller number.
    Like,
    // Its word takes the symbol's first input.
    TakesFirst,
}
