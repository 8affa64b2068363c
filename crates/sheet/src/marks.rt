// Which symbols have a row: a bit for each.
ghost use Rattle.std.specs.Prelude.{◌≡◌, ℕ, ◌^◌, ◌<◌, ◌≤◌, true, false, ◌&&◌, ◌||◌, MatchOption, ◌==◌, nat_lt};
ghost use Rattle.sheet.specs.Marked.{has as set_in, number, Least};

// How many rows there can be.
pub const ROWS: u8 = 32;

// The marks of a sheet. A symbol's mark is the bit of its number.
#[derive(Clone, Copy, Debug, PartialEq, Eq)]
pub struct Marks {
    pub bits: u32,
    ghost fits: { bits < 2 ^ 32 },
}

impl Marks {
    // No mark.
    pub fn none() -> Marks
        ensures { result.bits ≡ 0 }
    {
        Marks { bits: 0 }
    }

    // Whether the symbol is marked.
    pub fn has(&self, symbol: u8) -> bool
        ensures { result ≡ set_in self.now.bits symbol }
    {
        symbol < ROWS && (self.bits >> symbol) % 2 == 1
    }

    // Marks the symbol, and no other; one that has no row stays as it is.
    pub fn mark(&mut self, symbol: u8)
        ensures { (A : ℕ) → set_in self.new.bits A ≡ (set_in self.old.bits A || (nat_lt symbol 32 && A == symbol)) }
    {
        if symbol < ROWS {
            self.bits |= 1u32 << symbol;
        }
    }

    // How many symbols are marked.
    pub fn count(&self) -> u32
        ensures { result ≡ number self.now.bits 32 }
    {
        self.bits.count_ones()
    }

    // The smallest marked symbol from `from` on.
    pub fn next(&self, from: u8) -> Option<u8>
        ensures { MatchOption result ((A : ℕ) → from ≤ A → set_in self.now.bits A ≡ false) (λ A. (A < 32) × Least self.now.bits from A) }
    {
        if from >= ROWS {
            return None;
        }
        let rest = self.bits >> from;
        if rest == 0 {
            return None;
        }
        Some(from + rest.trailing_zeros() as u8)
    }
}
