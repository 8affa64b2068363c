// List grammars. A question looks through the records once.
ghost use Rattle.std.specs.Prelude.{◌≡◌, length, slice_index_or};
ghost use Rattle.std.specs.Option.{option_map};
ghost use Rattle.grammar.specs.Listed.{letter, written, of_record, hit, first_hit, listed, ListLaw};
ghost use Rattle.grammar.specs.WellListed.{listed_wellformed};

use crate::Grammar;
use crate::records::{RuleRecord, RuleWord};
use tally::Tally;

// A grammar that is a count of symbols and a list of rule records. Of two records for one symbol
// and letter the first counts; records at a symbol that is not below the count, or at a byte that
// is no letter, mean nothing.
#[derive(Drop)]
pub struct ListGrammar<T> {
    count: u8,
    records: Vec<RuleRecord<T>>,
}

// A record has room for this many symbols.
const RECORD_SYMBOLS: u8 = 5;

impl RuleWord {
    // How many symbols count.
    fn len(self) -> u8
        ensures { result ≡ length (written self) }
    {
        self.length.min(RECORD_SYMBOLS)
    }

    // The symbol at a place, 255 beyond those that count, as the question about a symbol answers.
    fn symbol(self, at: u8) -> u8
        ensures { result ≡ slice_index_or (written self) at 255 }
    {
        // The room cut to its length.
        let symbols = &self.symbols[..self.len() as usize];
        symbols.get(at as usize).copied().unwrap_or(255)
    }
}

impl<T> RuleRecord<T> {
    // Whether the record is for this symbol and letter.
    fn is_for(&self, symbol: u8, letter: u8) -> bool
        ensures { result ≡ hit symbol letter self.now }
    {
        self.symbol == symbol && self.letter == letter
    }
}

// The first record for the symbol and the letter.
fn find<T: Tally>(records: &[RuleRecord<T>], symbol: u8, letter: u8) -> Option<RuleRecord<T>>
    ensures { result ≡ first_hit symbol letter records.now }
{
    records
        .iter()
        .find(|record| record.is_for(symbol, letter))
        .copied()
}

impl<T: Tally> ListGrammar<T> {
    // The grammar of a count and a list of records.
    pub fn new(count: u8, records: Vec<RuleRecord<T>>) -> ListGrammar<T>
        ensures count { result.count ≡ count }
        ensures records { result.records.items ≡ records.items }
        ensures law { ListLaw count records.items }
    {
        ListGrammar { count, records }
    }

    // The record that gives the rule.
    fn rule(&self, symbol: u8, letter: u8) -> Option<RuleRecord<T>>
        ensures { option_map of_record result ≡ (listed self.now.count (self.now.records.items)).rule symbol letter }
    {
        if symbol < self.count && letter.is_ascii_uppercase() {
            find(&self.records, symbol, letter)
        } else {
            None
        }
    }
}

impl<T: Tally> Grammar for ListGrammar<T> {
    type T = T;

    ghost meaning = { λ g. listed g.count g.records.items };

    ghost wellformed = { λ g. listed_wellformed g.count g.records.items };

    fn count(&self) -> u8 {
        self.count
    }

    fn has_rule(&self, symbol: u8, letter: u8) -> bool {
        self.rule(symbol, letter).is_some()
    }

    // 0, and 255 below: a question's answer where there is no rule is fixed.
    fn rule_len(&self, symbol: u8, letter: u8) -> u8 {
        self.rule(symbol, letter).map_or(0, |rule| rule.word.len())
    }

    fn rule_symbol(&self, symbol: u8, letter: u8, at: u8) -> u8 {
        self.rule(symbol, letter)
            .map_or(255, |rule| rule.word.symbol(at))
    }

    fn rule_tally(&self, symbol: u8, letter: u8) -> T {
        self.rule(symbol, letter)
            .map_or(T::zero(), |rule| rule.tally)
    }
}
