// Where a pair of words comes from.
#[derive(Clone, Copy, Debug, PartialEq, Eq)]
pub enum Origin {
    // The words that are compared.
    Given,
    // What a row of the sheet leads to at a letter.
    Row { symbol: u8, letter: u8 },
}
