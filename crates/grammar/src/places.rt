// Tables with a place for each symbol and letter.
ghost use Rattle.std.specs.Prelude.{◌≡◌};
ghost use Rattle.grammar.specs.Places.{index};

// How many places such a table has for 32 symbols and 26 letters.
pub const PLACES: usize = 832;

// Where such a table has what belongs to the symbol and the letter.
pub fn index_of(symbol: u8, letter: u8) -> usize
    ensures { result ≡ index symbol letter }
{
    26 * symbol as usize + letter.saturating_sub(b'A') as usize
}
