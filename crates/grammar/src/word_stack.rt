// The word that is still to be used up, as a stack of symbols.
ghost use Rattle.std.specs.Prelude.{◌≡◌, ◌+◌, ◌≤◌, ltb, [], ◌∷◌, ◌++◌, length, is_some, if◌then◌else◌, nat_lt};
ghost use Rattle.std.specs.Option.{option_to_list};
ghost use Rattle.grammar.specs.Meaning.{word_of};

use crate::Grammar;

// The symbols of a word that are still to be used up, at most N. They fill the upper end of the cells,
// the first one at `top`, so that the word of a rule goes in front of the rest without moving it.
// The cells lie in place, as nothing is allocated in a device; a library's vector of fixed capacity
// keeps its free room at the other end, where a word could not be put in front nor lent in order.
#[derive(Drop)]
pub struct WordStack<const N: usize> {
    cells: [u8; N],
    top: usize,
    ghost within: { top ≤ N },
    ghost room: { length cells ≡ N },
}

impl<const N: usize> WordStack<N> {
    ghost use Rattle.grammar.specs.WordStacks.{held, put_before};

    // A stack that holds the empty word.
    pub fn new() -> WordStack<N>
        ensures { held result ≡ [] }
    {
        WordStack {
            cells: [0; N],
            top: N,
        }
    }

    // How many symbols it holds.
    pub fn len(&self) -> usize
        ensures value { result ≡ length (held self.now) }
        ensures bound { result ≤ N }
    {
        N - self.top
    }

    // The word that it holds.
    pub fn word(&self) -> &[u8]
        ensures { result.now ≡ held self.now }
    {
        let cells = &self.cells[..];
        &cells[self.top..]
    }

    // One symbol more in front; a full stack stays as it is.
    pub fn push(&mut self, symbol: u8)
        ensures { held self.new ≡ (if ltb (length (held self.old)) N then symbol ∷ held self.old else held self.old) }
    {
        if self.top > 0 {
            // By index: `top` is where the word begins.
            self.top -= 1;
            self.cells[self.top] = symbol;
        }
    }

    // Takes the first symbol off, if there is one.
    pub fn pop(&mut self) -> Option<u8>
        ensures word { held self.old ≡ option_to_list result ++ held self.new }
        ensures test { is_some result ≡ nat_lt 0 (length (held self.old)) }
    {
        let symbol = *self.cells.get(self.top)?;
        self.top += 1;
        Some(symbol)
    }

    // Puts a word in front; of one that does not fit, as many of its last symbols as there is room for.
    pub fn push_word(&mut self, word: &[u8])
        ensures { held self.new ≡ put_before N word.now (held self.old) }
    {
        // The few symbols of a rule go one by one, as a copy costs a call.
        if word.len() <= 4 {
            for symbol in word.iter().rev() {
                self.push(*symbol);
            }
            return;
        }
        let end = self.top;
        let top = end.saturating_sub(word.len());
        let cells = &mut self.cells[..];
        cells[top..end].copy_from_slice(&word[word.len() - (end - top)..]);
        self.top = top;
    }

    // Puts the word of a rule in front; of one that does not fit, as many of its last symbols as there
    // is room for.
    pub fn push_rule<G: Grammar>(&mut self, g: &G, symbol: u8, letter: u8)
        ensures { held self.new ≡ put_before N (word_of ((G.Grammar.meaning g.now).rule symbol letter)) (held self.old) }
    {
        // The grammar is asked for each place, from the last on: its word is no slice.
        for at in (0..g.rule_len(symbol, letter)).rev() {
            self.push(g.rule_symbol(symbol, letter, at));
        }
    }
}
