// Runs an input from a word over a bare grammar.
ghost use Rattle.std.specs.Prelude.{◌≡◌, ◌≤◌};
ghost use Rattle.grammar.specs.Laws.{DerivationLaw, WordLaws, derived, max_input};
ghost use Rattle.grammar.specs.Stepping.{Stepped};
ghost use Rattle.grammar.specs.WordStacks.{held};

use crate::Grammar;
use crate::too_long::InputTooLong;
use crate::word_stack::WordStack;
use tally::Tally;

// The most letters of an input that is run, and so the most symbols that can be to come.
pub const MAX_INPUT: usize = 16_384;

// One step with a letter, with `left` letters to come. None where no input can be taken this way:
// the word is empty, there is no rule, or more symbols would be left than letters.
fn step<G: Grammar>(
    g: &G,
    stack: &mut WordStack<MAX_INPUT>,
    letter: u8,
    left: usize,
) -> Option<G::T>
    ensures { left ≤ max_input → Stepped G.T.Tally.group (G.Grammar.meaning g.now) (held stack.old) letter left (held stack.new) result }
{
    let symbol = stack.pop()?;
    if !g.has_rule(symbol, letter) {
        return None;
    }
    if g.rule_len(symbol, letter) as usize + stack.len() > left {
        return None;
    }
    stack.push_rule(g, symbol, letter);
    Some(g.rule_tally(symbol, letter))
}

// Whether the word takes the input, and the tally; an input of more than MAX_INPUT letters is refused.
// A byte that is no letter has no rule, so such an input is not taken. Nothing is allocated; each
// letter costs a handful of questions and the symbols that its rule brings, so time is linear in the
// number of letters.
pub fn derive<G: Grammar>(g: &G, word: &[u8], input: &[u8]) -> Result<Option<G::T>, InputTooLong>
    ensures value { result ≡ derived G.T.Tally.group (G.Grammar.meaning g.now) word.now input.now }
    ensures derivation { DerivationLaw G.T.Tally.group }
    ensures words { WordLaws G.T.Tally.group }
{
    if input.len() > MAX_INPUT {
        return Err(InputTooLong {
            letters: input.len(),
        });
    }
    if word.len() > input.len() {
        return Ok(None);
    }
    let mut stack = WordStack::new();
    stack.push_word(word);
    let mut sum = <G::T as Tally>::zero();
    // A step asks how many letters are left.
    for (i, letter) in input.iter().enumerate() {
        let Some(tally) = step(g, &mut stack, *letter, input.len() - i - 1) else {
            return Ok(None);
        };
        sum = sum.add(tally);
    }
    // No symbol is left: a step leaves no more symbols than letters.
    Ok(Some(sum))
}
