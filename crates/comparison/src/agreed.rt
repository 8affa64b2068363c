// How far rows agree.
ghost use Rattle.std.specs.Prelude.{◌≡◌, length};

// For each row the first letter at which it was not yet seen to agree.
#[derive(Drop)]
pub(crate) struct Agreed {
    letters: [u8; 32],
    ghost room: { length letters ≡ 32 },
}

impl Agreed {
    ghost use Rattle.std.specs.Prelude.{ℕ, ◌<◌, cond, ◌==◌, slice_index};
    ghost use Rattle.comparison.specs.Agreed.{seen};

    // No letter was looked at.
    pub(crate) fn none() -> Agreed
        ensures { (A : ℕ) → A < 32 → seen result A ≡ 65 }
    {
        Agreed {
            letters: [b'A'; 32],
        }
    }

    // The first letter at which the symbol's row was not yet seen to agree.
    pub(crate) fn from(&self, symbol: u8) -> u8
        ensures { symbol < 32 → result ≡ seen self.now symbol }
    {
        self.letters.get(symbol as usize).copied().unwrap_or(b'A')
    }

    // The symbol's row agrees before the letter.
    pub(crate) fn before(&mut self, symbol: u8, letter: u8)
        ensures { symbol < 32 → (A : ℕ) → seen self.new A ≡ cond (A == symbol) letter (seen self.old A) }
    {
        if symbol < 32 {
            self.letters[symbol as usize] = letter;
        }
    }
}
