use agreement::Disagreement;
use layout::Fault;
use survey::GrammarFault;

// What a call can be refused for. Words are numbered 1 and 2; places count from 0.
#[derive(Clone, Copy, Debug, PartialEq, Eq)]
pub enum CallFault {
    // 1, 2 and 4 to 6: the offered bytes are no rows section. 2, 3 and 7: names or kinds that no file has are to be written.
    File(Fault),
    // 8 to 12: the grammar is refused.
    Grammar(GrammarFault),
    // 13: a given word has more than 8 symbols (its length).
    LongWord { word: u8, length: usize },
    // 14: a given word names a symbol that is not below the count (its place).
    StraySymbol { word: u8, place: usize },
    // 15: the buffer of a comparison has fewer than 16,384 bytes (its length).
    ShortBuffer(usize),
    // 16: the input of a run has more than 16,384 bytes (its length).
    LongInput(usize),
    // 17: an offered symbol has a row already.
    Marked(u8),
    // 18: an offered word has not its symbol's norm, or is one symbol of no smaller number.
    Unlike(u8),
    // 19: an offered word does not take its symbol's first input.
    Misses(u8),
    // 20: with all rows marked, a row does not agree at a letter.
    Disagrees(Disagreement),
    // 21: the buffer of a copy has fewer than 2,047 bytes, or that of a write fewer than 14,565 (its length).
    ShortCopy(usize),
}
