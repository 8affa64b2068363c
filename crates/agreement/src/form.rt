use grammar::WordStack;

// A word with a sum: what is put for a symbol, or what a word becomes. It has room for N symbols.
#[derive(Drop)]
pub struct Form<T, const N: usize> {
    pub word: WordStack<N>,
    pub sum: T,
}
