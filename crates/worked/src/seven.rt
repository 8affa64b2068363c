// The example grammar: seven symbols b c d e f k q over foot lengths.
ghost use Rattle.std.specs.Prelude.{◌≡◌, IfOk};
ghost use Rattle.worked.specs.Seven.{entry, seven_rules, Examples};

use grammar::{ListGrammar, RuleRecord, RuleWord};
use std::alloc::{AllocError, Global};
use tally::FootMm;

// The record of a rule.
fn record(symbol: u8, letter: u8, length: u8, symbols: [u8; 5], mm: u32) -> RuleRecord<FootMm>
    ensures { result ≡ entry symbol letter length symbols mm }
{
    let word = RuleWord { length, symbols };
    let tally = FootMm { mm };
    RuleRecord {
        symbol,
        letter,
        word,
        tally,
    }
}

// The grammar, and what is worked out by hand of it.
pub fn seven_symbols(heap: Global) -> Result<ListGrammar<FootMm>, AllocError>
    ensures count { IfOk result (λ g. g.count ≡ 7) }
    ensures records { IfOk result (λ g. g.records.items ≡ seven_rules) }
    ensures examples { Examples }
{
    let rules = [
        record(0, b'L', 0, [0, 0, 0, 0, 0], 270),
        record(0, b'S', 2, [0, 0, 0, 0, 0], 0),
        record(1, b'L', 0, [0, 0, 0, 0, 0], 270),
        record(1, b'S', 2, [0, 1, 0, 0, 0], 0),
        record(2, b'L', 1, [0, 0, 0, 0, 0], 270),
        record(2, b'S', 3, [0, 0, 0, 0, 0], 0),
        record(3, b'L', 0, [0, 0, 0, 0, 0], 270),
        record(3, b'S', 3, [0, 0, 0, 0, 0], 0),
        record(4, b'L', 0, [0, 0, 0, 0, 0], 265),
        record(4, b'S', 2, [0, 0, 0, 0, 0], 0),
        record(5, b'P', 1, [0, 0, 0, 0, 0], 10),
        record(6, b'P', 1, [0, 0, 0, 0, 0], 0),
    ];
    let records = Vec::from_slice(heap, &rules)?;
    Ok(ListGrammar::new(7, records))
}
