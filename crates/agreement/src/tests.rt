use crate::*;
use grammar::{ListGrammar, RuleRecord, RuleWord};
use sheet::{Sheet, row_of};
use std::alloc::{AllocError, Global};
use std::test::Fail;
use survey::{GrammarFault, survey};
use tally::FootMm;

// A rule whose word is the first `length` of the symbols.
fn rule(symbol: u8, letter: u8, length: u8, symbols: [u8; 5], mm: u32) -> RuleRecord<FootMm> {
    let word = RuleWord { length, symbols };
    let tally = FootMm { mm };
    RuleRecord {
        symbol,
        letter,
        word,
        tally,
    }
}

// The seven symbols b c d e f k q, numbered 0 to 6, over foot lengths.
fn seven_symbols(heap: Global) -> Result<ListGrammar<FootMm>, AllocError> {
    let rules = [
        rule(0, b'L', 0, [0, 0, 0, 0, 0], 270),
        rule(0, b'S', 2, [0, 0, 0, 0, 0], 0),
        rule(1, b'L', 0, [0, 0, 0, 0, 0], 270),
        rule(1, b'S', 2, [0, 1, 0, 0, 0], 0),
        rule(2, b'L', 1, [0, 0, 0, 0, 0], 270),
        rule(2, b'S', 3, [0, 0, 0, 0, 0], 0),
        rule(3, b'L', 0, [0, 0, 0, 0, 0], 270),
        rule(3, b'S', 3, [0, 0, 0, 0, 0], 0),
        rule(4, b'L', 0, [0, 0, 0, 0, 0], 265),
        rule(4, b'S', 2, [0, 0, 0, 0, 0], 0),
        rule(5, b'P', 1, [0, 0, 0, 0, 0], 10),
        rule(6, b'P', 1, [0, 0, 0, 0, 0], 0),
    ];
    Ok(ListGrammar::new(7, Vec::from_slice(heap, &rules)?))
}

// Four symbols: at S, 0 and 1 lead to each other, as 2 and 3 do; 2 is 270 mm more than 0, and 3 is 265 mm
// more than 1.
fn four_symbols(heap: Global) -> Result<ListGrammar<FootMm>, AllocError> {
    let less = 0u32.wrapping_sub(5);
    let rules = [
        rule(0, b'L', 0, [0, 0, 0, 0, 0], 0),
        rule(0, b'S', 1, [1, 0, 0, 0, 0], less),
        rule(1, b'L', 0, [0, 0, 0, 0, 0], 0),
        rule(1, b'S', 1, [0, 0, 0, 0, 0], 0),
        rule(2, b'L', 0, [0, 0, 0, 0, 0], 270),
        rule(2, b'S', 1, [3, 0, 0, 0, 0], 0),
        rule(3, b'L', 0, [0, 0, 0, 0, 0], 265),
        rule(3, b'S', 1, [2, 0, 0, 0, 0], less),
    ];
    Ok(ListGrammar::new(4, Vec::from_slice(heap, &rules)?))
}

// The first disagreement of rows, each a symbol and the one symbol of its word.
fn first_wrong(
    g: &ListGrammar<FootMm>,
    rows: &[(u8, u8)],
) -> Result<Option<(u8, u8)>, GrammarFault> {
    let survey = survey(g)?;
    let mut sheet = Sheet::empty();
    for (symbol, named) in rows {
        sheet.write(*symbol, row_of(&[*named]));
    }
    let work = Workspace::new(&survey, sheet.view());
    let wrong = work.first_disagreement(&survey, sheet.view());
    Ok(wrong.map(|wrong| (wrong.symbol, wrong.letter)))
}

// c → b and q → k prove themselves; e → b does not agree at S.
#[test]
fn single_rows(rt: HostRuntime) -> Result<(), Fail> {
    let g = seven_symbols(rt.alloc())?;
    assert_eq!(rt; first_wrong(&g, &[(1, 0)]), Ok(None));
    assert_eq!(rt; first_wrong(&g, &[(6, 5)]), Ok(None));
    assert_eq!(rt; first_wrong(&g, &[(3, 0)]), Ok(Some((3, b'S'))));
    assert_eq!(rt;
        first_wrong(&g, &[(1, 0), (3, 0), (6, 5)]),
        Ok(Some((3, b'S')))
    );
    Ok(())
}

// 2 → 0 and 3 → 1 agree only together.
#[test]
fn rows_together(rt: HostRuntime) -> Result<(), Fail> {
    let g = four_symbols(rt.alloc())?;
    assert_eq!(rt; first_wrong(&g, &[(2, 0)]), Ok(Some((2, b'S'))));
    assert_eq!(rt; first_wrong(&g, &[(3, 1)]), Ok(Some((3, b'S'))));
    assert_eq!(rt; first_wrong(&g, &[(2, 0), (3, 1)]), Ok(None));
    Ok(())
}

// What a single row is tested for; q → k has the offset -10 mm, which its normal forms have for each q.
#[test]
fn row_by_row(rt: HostRuntime) -> Result<(), Fail> {
    let g = seven_symbols(rt.alloc())?;
    let survey = survey(&g).ok().expect(&rt, "it is accepted");
    assert_eq!(rt; offset(&survey, 1, &[0]).mm, 0);
    assert_eq!(rt; offset(&survey, 6, &[5]).mm, 4_294_967_286);
    assert_eq!(rt; may_stand(survey.skeleton(), 1, &[0]), true);
    assert_eq!(rt; may_stand(survey.skeleton(), 0, &[1]), false);
    assert_eq!(rt; may_stand(survey.skeleton(), 6, &[0]), false);
    assert_eq!(rt; takes_first(&survey, 6, &[5]), true);
    assert_eq!(rt; takes_first(&survey, 6, &[0, 0]), false);
    let mut sheet = Sheet::empty();
    sheet.write(6, row_of(&[5]));
    let work = Workspace::new(&survey, sheet.view());
    let normal = work.normal_form(&[6, 0, 6]);
    assert_eq!(rt; normal.word.word(), &[5, 0, 5][..]);
    assert_eq!(rt; normal.sum.mm, 4_294_967_276);
    assert_eq!(rt; work.agrees(&survey, sheet.view(), 6, b'P'), true);
    Ok(())
}
