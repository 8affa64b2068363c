use grammar::WordStack;
use norm::WORD_CAPACITY;

// Where a run ended: what is left of the word, and the tally.
#[derive(Drop)]
pub struct Run<T> {
    pub left: WordStack<WORD_CAPACITY>,
    pub tally: T,
}
