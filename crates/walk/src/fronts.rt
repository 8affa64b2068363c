// The front of an input that a word takes.
ghost use Rattle.std.specs.Prelude.{◌≡◌, ◌≤◌, length, None, MatchOption};
ghost use Rattle.witness.specs.Alike.{cut};
ghost use Rattle.walk.specs.Inputs.{most};
ghost use Rattle.walk.specs.Fronts.{IsFront};

use crate::front::Front;
use grammar::{Grammar, MAX_INPUT, WordStack};
use tally::Tally;

// The front of the input that the word takes; none where it takes no front. There is at most one: no front of
// what a word takes is taken.
pub fn front_of<G: Grammar>(g: &G, word: &[u8], input: &[u8]) -> Option<Front<G::T>>
    ensures { length input.now ≤ most → MatchOption result (cut (G.Grammar.meaning g.now) word.now input.now ≡ None) (λ f. IsFront G.T.Tally.group (G.Grammar.meaning g.now) word.now input.now f.length f.tally) }
{
    if word.len() > input.len() {
        return None;
    }
    let mut left = WordStack::<MAX_INPUT>::new();
    left.push_word(word);
    let mut tally = <G::T as Tally>::zero();
    // A step asks how many letters are left.
    for (length, letter) in input.iter().enumerate() {
        let Some(symbol) = left.pop() else {
            return Some(Front { length, tally });
        };
        if !g.has_rule(symbol, *letter) {
            return None;
        }
        // More symbols than letters cannot be used up.
        if g.rule_len(symbol, *letter) as usize + left.len() > input.len() - length - 1 {
            return None;
        }
        left.push_rule(g, symbol, *letter);
        tally = tally.add(g.rule_tally(symbol, *letter));
    }
    // No symbol is left: a step leaves no more symbols than letters.
    let length = input.len();
    Some(Front { length, tally })
}
