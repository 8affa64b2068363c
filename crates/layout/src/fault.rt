// What the file check can find wrong.

// The layer that a fault belongs to. The shops call a grammar a book and a comparer a bench.
#[derive(Clone, Copy, Debug, PartialEq, Eq)]
pub enum Layer {
    File,
    Grammar,
    Comparer,
}

// A fault of the file. Places count from 0.
#[derive(Clone, Copy, Debug, PartialEq, Eq)]
pub enum Fault {
    // 1: the bytes end inside a field or before the next one (the number of bytes).
    Short(usize),
    // 2: a count or a length is outside its limits (its place).
    Limit(usize),
    // 3: a name, kind or letter is not allowed, a name repeats, or kinds do not rise (its place).
    Unallowed(usize),
    // 4: a rule or row does not come after the one before it (the place of its first byte).
    Order(usize),
    // 5: a symbol is not below the count of names (its place).
    Symbol(usize),
    // 6: bytes follow the last row (the place of the first).
    Trailing(usize),
    // 7: the tally has other kinds than the file, or kinds that no file holds.
    Kinds,
}

// A fault as it is told: its number, its layer, and its two numbers.
#[derive(Clone, Copy, Debug, PartialEq, Eq)]
pub struct FaultCode {
    pub number: u8,
    pub layer: Layer,
    pub first: usize,
    pub second: usize,
}
