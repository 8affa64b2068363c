use crate::*;
use agreement::Workspace;
use grammar::{ListGrammar, RuleRecord, RuleWord};
use sheet::{Sheet, row_of};
use std::alloc::{AllocError, Global};
use std::test::Fail;
use survey::{GrammarFault, survey};
use tally::FootMm;

// A rule whose word is `length` times the symbol 0.
fn rule(symbol: u8, letter: u8, length: u8, mm: u32) -> RuleRecord<FootMm> {
    let word = RuleWord {
        length,
        symbols: [0; 5],
    };
    let tally = FootMm { mm };
    RuleRecord {
        symbol,
        letter,
        word,
        tally,
    }
}

// Two symbols, 0 and 1, that differ at S: 0 leads to 00 and 1 to 000.
fn two_symbols(heap: Global) -> Result<ListGrammar<FootMm>, AllocError> {
    let rules = [
        rule(0, b'L', 0, 270),
        rule(0, b'S', 2, 0),
        rule(1, b'L', 0, 270),
        rule(1, b'S', 3, 0),
    ];
    Ok(ListGrammar::new(2, Vec::from_slice(heap, &rules)?))
}

// Who is to blame for the word on the input, over the one row 1 → 0.
fn with_row(
    g: &ListGrammar<FootMm>,
    word: &[u8],
    input: &[u8],
) -> Result<Option<Blame>, GrammarFault> {
    let survey = survey(g)?;
    let mut sheet = Sheet::empty();
    sheet.write(1, row_of(&[0]));
    let work = Workspace::new(&survey, sheet.view());
    Ok(blamed(&survey, &work, sheet.view(), word, input))
}

#[test]
fn fronts(rt: HostRuntime) -> Result<(), Fail> {
    let g = two_symbols(rt.alloc())?;
    let tally = FootMm { mm: 810 };
    let length = 4;
    assert_eq!(rt;
        front_of(&g, &[0, 0], b"SLLLL"),
        Some(Front { length, tally })
    );
    assert_eq!(rt; front_of(&g, &[0], b"SL"), None);
    let tally = FootMm { mm: 0 };
    let length = 0;
    assert_eq!(rt; front_of(&g, &[], b"SL"), Some(Front { length, tally }));
    Ok(())
}

// Behind the first letter 0 takes SLL and 1 does not; on LL both take L.
#[test]
fn blames(rt: HostRuntime) -> Result<(), Fail> {
    let g = two_symbols(rt.alloc())?;
    let blame = Blame {
        symbol: 1,
        from: 1,
        length: 3,
    };
    assert_eq!(rt; with_row(&g, &[0, 1], b"LSLL"), Ok(Some(blame)));
    assert_eq!(rt; with_row(&g, &[0, 1], b"LL"), Ok(None));
    Ok(())
}
