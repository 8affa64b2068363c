use crate::*;
use std::alloc::{AllocError, Global};
use std::test::Fail;
use tally::Untallied;

// A record with the word `symbols` cut to `length`.
fn record(symbol: u8, letter: u8, length: u8) -> RuleRecord<Untallied> {
    let symbols = [symbol; 5];
    let word = RuleWord { length, symbols };
    let tally = Untallied;
    RuleRecord {
        symbol,
        letter,
        word,
        tally,
    }
}

// A grammar in which the symbol goes on at A, ends at B, and has a word of five at C.
fn goes_on(heap: Global, count: u8, symbol: u8) -> Result<ListGrammar<Untallied>, AllocError> {
    let records = Vec::from_slice(
        heap,
        &[
            record(symbol, b'A', 1),
            record(symbol, b'B', 0),
            record(symbol, b'C', 9),
            record(symbol, b'C', 2),
        ],
    )?;
    Ok(ListGrammar::new(count, records))
}

// 16,384 letters are run, and one more is refused with the number.
#[test]
fn longest_input(rt: HostRuntime) -> Result<(), Fail> {
    let g = goes_on(rt.alloc(), 1, 0)?;
    let mut input = vec![in rt.alloc(); b'A'; 16_383]?;
    input.push(b'B')?;
    assert!(rt; derive(&g, &[0], &input).ok().is_some());
    assert_eq!(rt; g.rule_len(0, b'C'), 5);
    input.push(b'B')?;
    assert_eq!(rt;
        derive(&g, &[0], &input).err(),
        Some(InputTooLong { letters: 16_385 })
    );
    Ok(())
}

// A twin's count stops at 255, and what would lie beyond is lost.
#[test]
fn full_twin(rt: HostRuntime) -> Result<(), Fail> {
    let twin = Twin::new(
        goes_on(rt.alloc(), 200, 199)?,
        goes_on(rt.alloc(), 100, 54)?,
    );
    assert_eq!(rt; twin.count(), 255);
    assert!(rt; twin.has_rule(254, b'A'));
    assert_eq!(rt; twin.rule_symbol(254, b'A', 0), 254);
    assert_eq!(rt; twin.rule_symbol(199, b'A', 0), 199);
    assert!(rt; !twin.has_rule(255, b'A'));
    Ok(())
}
