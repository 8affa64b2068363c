// First inputs of words.
ghost use Rattle.std.specs.Prelude.{◌≡◌, ◌≤◌, min, ◌++◌, length, drop, if◌then◌else◌, Some, None, nat_le};
ghost use Rattle.grammar.specs.Meaning.{Below};
ghost use Rattle.norm.specs.Norms.{norms as norm_of, firsts};
ghost use Rattle.norm.specs.Certified.{spelled};
ghost use Rattle.norm.specs.Skeletons.{rule_words, norm_at, letter_at, first_at};

use crate::skeleton::Skeleton;
use grammar::WordStack;

// The most symbols of a word that is worked with: 8 symbols of norm 64.
pub const WORD_CAPACITY: usize = 512;

impl Skeleton {
    // Fills the buffer with the first input of a word whose norm is its length.
    fn spell(&self, word: &[u8], out: &mut [u8])
        ensures { Below self.now.words.count word.now → norm_of (norm_at self.now) word.now ≡ length out.old → length out.old ≤ 512 → out.new ≡ spelled (rule_words self.now) (letter_at self.now) (length out.old) word.now }
    {
        let mut left = WordStack::<WORD_CAPACITY>::new();
        left.push_word(word);
        for cell in out.iter_mut() {
            let Some(symbol) = left.pop() else {
                return;
            };
            let letter = self.letter(symbol);
            let Some(rule) = self.words.word(symbol, letter) else {
                return;
            };
            left.push_word(rule.as_slice());
            *cell = letter;
        }
    }

    // Writes the first input of a word of the grammar's symbols at the start of the buffer, and
    // answers its length. Where it has more letters than the buffer or than 512 it answers none, and
    // the buffer is as it was.
    pub fn first_input(&self, word: &[u8], out: &mut [u8]) -> Option<usize>
        ensures value { Below self.now.words.count word.now → result ≡ (if nat_le (norm_of (norm_at self.now) word.now) (min 512 (length out.old)) then Some (norm_of (norm_at self.now) word.now) else None) }
        ensures out { Below self.now.words.count word.now → out.new ≡ (if nat_le (norm_of (norm_at self.now) word.now) (min 512 (length out.old)) then firsts (first_at self.now) word.now ++ drop (norm_of (norm_at self.now) word.now) out.old else out.old) }
    {
        let norm = self.norm_of(word);
        if norm > WORD_CAPACITY || norm > out.len() {
            return None;
        }
        self.spell(word, &mut out[0..norm]);
        Some(norm)
    }
}
