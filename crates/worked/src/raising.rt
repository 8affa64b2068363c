// Words of the second part of a twin.
ghost use Rattle.std.specs.Prelude.{◌≡◌, IfOk};
ghost use Rattle.grammar.specs.Twinned.{raised};

use grammar::raise;
use std::alloc::{AllocError, Global};

// The word with every symbol raised by the first part's count.
pub fn raise_word(heap: Global, word: &[u8], by: u8) -> Result<Vec<u8>, AllocError>
    ensures { IfOk result (λ v. v.items ≡ raised by word.now) }
{
    word.iter().map(|symbol| raise(*symbol, by)).collect(heap)
}
