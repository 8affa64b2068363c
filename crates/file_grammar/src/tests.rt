use crate::*;
use grammar::{Grammar, derive};
use tally::{FootMm, LastMm};

// Two names b and c, foot lengths, four rules and a row.
const GOOD: [u8; 43] = [
    2, 98, 99, 1, 1, 0, 4, 0, 76, 0, 0, 1, 14, 0, 0, 83, 0, 0, 0, 0, 2, 0, 0, 1, 76, 0, 0, 1, 14,
    0, 1, 83, 0, 0, 0, 0, 2, 0, 1, 1, 1, 1, 0,
];

// What the word takes, in millimetres.
fn taken(g: &FileGrammar<FootMm>, word: &[u8], input: &[u8]) -> Option<u32> {
    derive(g, word, input).ok().flatten().map(|tally| tally.mm)
}

// A good file is run; for another tally it has no symbol.
#[test]
fn file_is_run(rt: HostRuntime) {
    let g = FileGrammar::<FootMm>::new(&GOOD);
    assert_eq!(rt; g.count(), 2);
    assert_eq!(rt; taken(&g, &[1], b"SLL"), Some(540));
    assert_eq!(rt; taken(&g, &[0], b"SL"), None);
    assert_eq!(rt; g.rule_symbol(1, b'S', 1), 1);
    assert_eq!(rt; g.rule_symbol(1, b'S', 2), 255);
    let other = FileGrammar::<LastMm>::new(&GOOD);
    assert_eq!(rt; other.count(), 0);
}
