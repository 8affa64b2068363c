// The rules of a survey, as a file has them.
ghost use Rattle.std.specs.Prelude.{◌≡◌, ◌≤◌, ◌++◌, length};
ghost use Rattle.std.specs.Option.{option_map, option_to_list};
ghost use Rattle.layout.specs.Contents.{two, four, joined, rule_bytes};
ghost use Rattle.format.specs.Lent.{Wrote};
ghost use Rattle.survey.specs.Surveyed.{surveyed};
ghost use Rattle.writing.specs.Files.{entry, rules_in};

use calls::put;
use format::FileTally;
use grammar::Grammar;
use survey::Survey;

// Writes the numbers of a tally at a place, each in four bytes, high first, and answers the place behind them.
fn numbers_into<T: FileTally>(tally: &T, out: &mut [u8], start: usize) -> usize
    ensures { length T.FileTally.kinds ≤ 2 → Wrote out.old start (joined four (T.FileTally.numbers tally.now)) result out.new }
{
    let mut at = start;
    // By place: a tally gives its numbers one by one.
    for place in 0..T::kind_count() {
        if let Some(number) = tally.number(place) {
            at = put(out, at, &number.to_be_bytes());
        }
    }
    at
}

// Writes the rule for the symbol and the letter at a place, if there is one, and answers the place behind it.
fn rule_into<T: FileTally>(
    survey: &Survey<T>,
    symbol: u8,
    letter: u8,
    out: &mut [u8],
    start: usize,
) -> usize
    ensures { length T.FileTally.kinds ≤ 2 → Wrote out.old start (joined rule_bytes (option_to_list (option_map (entry T.FileTally.numbers symbol letter) ((surveyed survey.now).rule symbol letter)))) result out.new }
{
    let Some(word) = survey.skeleton().words.word(symbol, letter) else {
        return start;
    };
    let tally = survey.rule_tally(symbol, letter);
    let head = put(out, start, &[symbol, letter]);
    let numbers = numbers_into(&tally, out, head);
    let length = put(out, numbers, &[word.len]);
    put(out, length, word.as_slice())
}

// How many rules there are: at most 832.
fn rule_count<T: FileTally>(survey: &Survey<T>) -> u16
    ensures { result ≡ length (rules_in T.FileTally.numbers (surveyed survey.now) survey.now.skeleton.words.count) }
{
    let mut count = 0;
    // A survey is asked by numbers, as a grammar is.
    for symbol in 0..survey.count() {
        for letter in b'A'..=b'Z' {
            if survey.has_rule(symbol, letter) {
                count += 1;
            }
        }
    }
    count
}

// Writes the rules at a place, by symbol, then letter, behind their count, and answers the place behind them.
pub(crate) fn rules_into<T: FileTally>(survey: &Survey<T>, out: &mut [u8], start: usize) -> usize
    ensures { length T.FileTally.kinds ≤ 2 → (let rules = rules_in T.FileTally.numbers (surveyed survey.now) survey.now.skeleton.words.count in Wrote out.old start (two (length rules) ++ joined rule_bytes rules) result out.new) }
{
    let mut at = put(out, start, &rule_count(survey).to_be_bytes());
    // By numbers, as above.
    for symbol in 0..survey.count() {
        for letter in b'A'..=b'Z' {
            at = rule_into(survey, symbol, letter, out, at);
        }
    }
    at
}
