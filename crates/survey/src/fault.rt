// What a grammar can be refused for.

// A fault of the grammar. A letter is told by its byte.
#[derive(Clone, Copy, Debug, PartialEq, Eq)]
pub enum GrammarFault {
    // 8: there is no symbol, or more than 32 (the count).
    Count(u8),
    // 9: a rule has more than 4 symbols.
    LongRule { symbol: u8, letter: u8 },
    // 10: a rule names a symbol that is not below the count.
    StraySymbol { symbol: u8, letter: u8 },
    // 11: a symbol takes no input (the smallest such symbol).
    NoInput(u8),
    // 12: the norm of a symbol passes 64 (the smallest such symbol).
    TooLong(u8),
}
