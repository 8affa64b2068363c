// An input in place.
ghost use Rattle.std.specs.Prelude.{◌≡◌, ◌≤◌, length};

use grammar::MAX_INPUT;
use norm::{Skeleton, WORD_CAPACITY};

// An input of at most 16,384 letters, in place: the first `len` bytes. What would go beyond is left out.
#[derive(Drop)]
pub struct Letters {
    bytes: [u8; MAX_INPUT],
    len: usize,
    ghost within: { len ≤ 16384 },
    ghost room: { length bytes ≡ 16384 },
}

impl Letters {
    ghost use Rattle.std.specs.Prelude.{[], ◌∷◌, ◌++◌, take};
    ghost use Rattle.grammar.specs.Meaning.{Below};
    ghost use Rattle.norm.specs.Norms.{norms, firsts};
    ghost use Rattle.norm.specs.Skeletons.{norm_at, first_at};
    ghost use Rattle.walk.specs.Inputs.{letters, most};

    // No letters.
    pub fn new() -> Letters
        ensures { letters result ≡ [] }
    {
        Letters {
            bytes: [0; MAX_INPUT],
            len: 0,
        }
    }

    // The letters.
    pub fn as_slice(&self) -> &[u8]
        ensures { result.now ≡ letters self.now }
    {
        let bytes = &self.bytes[..];
        &bytes[..self.len]
    }

    // Begins anew.
    pub fn clear(&mut self)
        ensures { letters self.new ≡ [] }
    {
        self.len = 0;
    }

    // Adds an input behind the letters.
    pub fn extend(&mut self, input: &[u8])
        ensures { letters self.new ≡ take most (letters self.old ++ input.now) }
    {
        let start = self.len;
        let count = input.len().min(MAX_INPUT - start);
        let bytes = &mut self.bytes[..];
        bytes[start..start + count].copy_from_slice(&input[..count]);
        self.len = start + count;
    }

    // Adds a letter.
    pub fn push(&mut self, letter: u8)
        ensures { letters self.new ≡ take most (letters self.old ++ letter ∷ []) }
    {
        self.extend(&[letter]);
    }

    // Adds the first input of a word of the grammar's symbols, its norm at most 512.
    pub fn extend_first(&mut self, skeleton: &Skeleton, word: &[u8])
        ensures { Below skeleton.now.words.count word.now → norms (norm_at skeleton.now) word.now ≤ 512 → letters self.new ≡ take most (letters self.old ++ firsts (first_at skeleton.now) word.now) }
    {
        let mut room = [0; WORD_CAPACITY];
        let length = skeleton.first_input(word, &mut room).unwrap_or(0);
        self.extend(room.get(..length).unwrap_or(&[]));
    }
}
