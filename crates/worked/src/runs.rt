// Runs over grammars with foot lengths.
ghost use Rattle.std.specs.Prelude.{◌≡◌, ◌+◌, ◌≤◌, IfOk};
ghost use Rattle.grammar.specs.Laws.{derived};
ghost use Rattle.tally.specs.Makes.{foot_group};
ghost use Rattle.worked.specs.Reading.{in_millimetres};

use crate::outcome::Outcome;
use crate::raising::raise_word;
use grammar::{Grammar, Twin, derive};
use std::alloc::{AllocError, Global};
use tally::FootMm;

// What the grammar says of the word and the input, apart as `derive` takes them.
pub fn outcome_of<G: Grammar<T = FootMm>>(g: &G, word: &[u8], input: &[u8]) -> Outcome
    ensures { result ≡ in_millimetres (derived foot_group (G.Grammar.meaning g.now) word.now input.now) }
{
    let taken = derive(g, word, input)?;
    Ok(taken.map(|tally| tally.mm))
}

// What a twin says of a word of its second grammar, whose symbols it raises: what that grammar says.
pub fn outcome_in_second<G: Grammar<T = FootMm>, H: Grammar<T = FootMm>>(
    heap: Global,
    twin: &Twin<G, H>,
    word: &[u8],
    input: &[u8],
) -> Result<Outcome, AllocError>
    ensures { IfOk result (λ o. (G.Grammar.meaning twin.now.first).count + (H.Grammar.meaning twin.now.second).count ≤ 255 → o ≡ in_millimetres (derived foot_group (H.Grammar.meaning twin.now.second) word.now input.now)) }
{
    let raised = raise_word(heap, word, twin.first.count())?;
    Ok(outcome_of(twin, &raised, input))
}
