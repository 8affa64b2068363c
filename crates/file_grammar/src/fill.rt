// The table of a checked file, filled in one pass over the bytes of its rules.
ghost use Rattle.std.specs.Prelude.{◌≡◌, ◌≤◌, List, slice_set};
ghost use Rattle.layout.specs.Contents.{FileRule, Contents, Legal};
ghost use Rattle.file_grammar.specs.Placed.{RulesOf, Placed, Tables};
ghost use Rattle.grammar.specs.Places.{index};
ghost use Rattle.format.specs.Views.{Shows};

use crate::rule_bytes::RuleBytes;
use crate::rule_table::RuleTable;
use format::Checked;
use grammar::{PLACES, index_of};

// Writes the place of the rule for the symbol and the letter.
fn put(places: &mut [u16; PLACES], symbol: u8, letter: u8, place: u16)
    ensures { places.new ≡ slice_set places.old (index symbol letter) place }
{
    // By index: with `get_mut` the proof did not close.
    let at = index_of(symbol, letter);
    if at < PLACES {
        places[at] = place;
    }
}

// The places of the rules that the bytes encode. With two kinds at most, as in a file, each fits in a u16.
fn placed(bytes: &[u8], kinds: u8) -> [u16; PLACES]
    ensures { (rs : List FileRule) → kinds ≤ 2 → RulesOf kinds bytes.now rs → Placed kinds bytes.now rs result }
{
    let mut places = [0; PLACES];
    let mut left = bytes;
    let mut place = 1u16;
    // No count: rules are taken off the front until none is left.
    while let [symbol, letter, ..] = left {
        put(&mut places, *symbol, *letter, place);
        let rule = RuleBytes { bytes: left, kinds };
        place = place.saturating_add(rule.size());
        left = rule.rest();
    }
    places
}

// The table of a checked file.
pub(crate) fn table_of<'a>(file: Checked<'a>) -> RuleTable<'a>
    ensures { (c : Contents) → Legal c → Shows file.entry c → Tables result c }
{
    // A checked file has at most 32 names and two kinds.
    let count = u8::try_from(file.names.len()).unwrap_or(u8::MAX);
    let kinds = u8::try_from(file.kinds.len()).unwrap_or(u8::MAX);
    let rules = file.rules.bytes;
    let places = placed(rules, kinds);
    RuleTable {
        count,
        kinds,
        rules,
        places,
    }
}

// The table without symbols.
pub(crate) fn empty_table<'a>() -> RuleTable<'a>
    ensures { result.count ≡ 0 }
{
    RuleTable {
        count: 0,
        kinds: 0,
        rules: &[],
        places: [0; PLACES],
    }
}
