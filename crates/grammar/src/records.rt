// A rule as it is written down in a list grammar.

// Room for five symbols; a length above five counts as five. No ArrayVec: any byte may stand as the
// length, which is fixed for records.
#[derive(Clone, Copy, Debug)]
pub struct RuleWord {
    pub length: u8,
    pub symbols: [u8; 5],
}

// The rule at a symbol and a letter.
#[derive(Clone, Copy, Debug)]
pub struct RuleRecord<T> {
    pub symbol: u8,
    pub letter: u8,
    pub word: RuleWord,
    pub tally: T,
}
