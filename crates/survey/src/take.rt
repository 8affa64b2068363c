// Takes up the rules of a grammar of any make.
ghost use Rattle.std.specs.Prelude.{◌≡◌, ℕ, ◌<◌, length, Ok, Err, slice_index_or};
ghost use Rattle.std.specs.Option.{option_map};
ghost use Rattle.grammar.specs.Meaning.{Letter, word_of, tally_of};
ghost use Rattle.norm.specs.Words.{words_of};
ghost use Rattle.grammar.specs.Places.{index};
ghost use Rattle.norm.specs.Tabled.{held};
ghost use Rattle.survey.specs.Refusals.{Fine, BadRule, Refused};
ghost use Rattle.survey.specs.Laws.{TakenUp};

use crate::fault::GrammarFault;
use grammar::{Grammar, PLACES, index_of};
use norm::{MAX_RULE, MAX_SYMBOLS, RuleWords, ShortWord};
use tally::Tally;

// The symbol at a place of a rule's word, which has this length; 255 beyond its end. The grammar is asked only
// for symbols that are there: one that is a list looks through its rules at each question.
fn symbol_at<G: Grammar>(g: &G, symbol: u8, letter: u8, len: u8, at: u8) -> u8
    ensures { len ≡ length (word_of ((G.Grammar.meaning g.now).rule symbol letter)) → result ≡ slice_index_or (word_of ((G.Grammar.meaning g.now).rule symbol letter)) at 255 }
{
    if at < len {
        g.rule_symbol(symbol, letter, at)
    } else {
        255
    }
}

// The word of the rule for the symbol and the letter, if there is a rule; or what is wrong with it.
fn rule_word<G: Grammar>(
    g: &G,
    count: u8,
    symbol: u8,
    letter: u8,
) -> Result<Option<ShortWord<4>>, GrammarFault>
    ensures { elim result [ Ok o ↦ (option_map held o ≡ words_of (G.Grammar.meaning g.now) symbol letter) × Fine count (G.Grammar.meaning g.now) symbol letter | Err f ↦ BadRule count (G.Grammar.meaning g.now) symbol letter f ] }
{
    let len = g.rule_len(symbol, letter);
    if len > MAX_RULE {
        return Err(GrammarFault::LongRule { symbol, letter });
    }
    let symbols = std::array::from_fn(|at| symbol_at(g, symbol, letter, len, at as u8));
    let word = ShortWord { symbols, len };
    if !word.as_slice().iter().all(|named| *named < count) {
        return Err(GrammarFault::StraySymbol { symbol, letter });
    }
    Ok(g.has_rule(symbol, letter).then_some(word))
}

// The words of a grammar's rules; or the count, or the first rule, that it is refused for.
pub(crate) fn rule_words<G: Grammar>(g: &G) -> Result<RuleWords, GrammarFault>
    ensures { elim result [ Ok t ↦ TakenUp 32 (G.Grammar.meaning g.now) t.count t.words | Err f ↦ Refused 32 64 G.T.Tally.group (G.Grammar.meaning g.now) f ] }
{
    let count = g.count();
    if count == 0 || count > MAX_SYMBOLS {
        return Err(GrammarFault::Count(count));
    }
    let mut words = [None; PLACES];
    // A grammar is asked by numbers, and a rule has its place: there is nothing else to go over.
    for symbol in 0..count {
        for letter in b'A'..=b'Z' {
            let word = rule_word(g, count, symbol, letter)?;
            words[index_of(symbol, letter)] = word;
        }
    }
    Ok(RuleWords { count, words })
}

// The tallies of the rules of a grammar with these words, each at its rule's place. Of the words only the
// count is read, which their type bounds.
pub(crate) fn rule_tallies<G: Grammar>(g: &G, words: &RuleWords) -> [G::T; PLACES]
    ensures size { length result ≡ 832 }
    ensures each { (A a : ℕ) (d : G.T) → A < words.now.count → Letter a → slice_index_or result (index A a) d ≡ tally_of G.T.Tally.group.zero ((G.Grammar.meaning g.now).rule A a) }
{
    let mut tallies = [<G::T as Tally>::zero(); PLACES];
    // By numbers, as above.
    for symbol in 0..words.count {
        for letter in b'A'..=b'Z' {
            tallies[index_of(symbol, letter)] = g.rule_tally(symbol, letter);
        }
    }
    tallies
}
