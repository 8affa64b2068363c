use crate::*;
use agreement::Workspace;
use grammar::{ListGrammar, RuleRecord, RuleWord};
use sheet::Sheet;
use std::alloc::{AllocError, Global};
use std::test::Fail;
use survey::{GrammarFault, survey};
use tally::FootMm;
use walk::Letters;

// A rule whose word is the first `length` of the symbols.
fn rule(symbol: u8, letter: u8, length: u8, symbols: [u8; 5], mm: u32) -> RuleRecord<FootMm> {
    let word = RuleWord { length, symbols };
    let tally = FootMm { mm };
    RuleRecord {
        symbol,
        letter,
        word,
        tally,
    }
}

// The seven symbols b c d e f k q, numbered 0 to 6, over foot lengths.
fn seven_symbols(heap: Global) -> Result<ListGrammar<FootMm>, AllocError> {
    let rules = [
        rule(0, b'L', 0, [0, 0, 0, 0, 0], 270),
        rule(0, b'S', 2, [0, 0, 0, 0, 0], 0),
        rule(1, b'L', 0, [0, 0, 0, 0, 0], 270),
        rule(1, b'S', 2, [0, 1, 0, 0, 0], 0),
        rule(2, b'L', 1, [0, 0, 0, 0, 0], 270),
        rule(2, b'S', 3, [0, 0, 0, 0, 0], 0),
        rule(3, b'L', 0, [0, 0, 0, 0, 0], 270),
        rule(3, b'S', 3, [0, 0, 0, 0, 0], 0),
        rule(4, b'L', 0, [0, 0, 0, 0, 0], 265),
        rule(4, b'S', 2, [0, 0, 0, 0, 0], 0),
        rule(5, b'P', 1, [0, 0, 0, 0, 0], 10),
        rule(6, b'P', 1, [0, 0, 0, 0, 0], 0),
    ];
    Ok(ListGrammar::new(7, Vec::from_slice(heap, &rules)?))
}

// Four symbols X Y Z V, numbered 0 to 3, which are X once, twice, three times and three times.
fn powers(heap: Global) -> Result<ListGrammar<FootMm>, AllocError> {
    let rules = [
        rule(0, b'A', 0, [0, 0, 0, 0, 0], 0),
        rule(0, b'B', 2, [0, 1, 0, 0, 0], 0),
        rule(1, b'A', 1, [0, 0, 0, 0, 0], 0),
        rule(1, b'B', 2, [1, 1, 0, 0, 0], 0),
        rule(2, b'A', 2, [0, 0, 0, 0, 0], 0),
        rule(2, b'B', 3, [1, 0, 1, 0, 0], 0),
        rule(3, b'A', 1, [1, 0, 0, 0, 0], 0),
        rule(3, b'B', 2, [1, 2, 0, 0, 0], 0),
    ];
    Ok(ListGrammar::new(4, Vec::from_slice(heap, &rules)?))
}

// Four symbols X Y Z V, numbered 0 to 3: at A, Z leads to Y and V to XX, which are not the same.
fn no_powers(heap: Global) -> Result<ListGrammar<FootMm>, AllocError> {
    let rules = [
        rule(0, b'A', 0, [0, 0, 0, 0, 0], 0),
        rule(0, b'B', 2, [2, 0, 0, 0, 0], 0),
        rule(1, b'A', 1, [0, 0, 0, 0, 0], 0),
        rule(1, b'B', 3, [0, 1, 0, 0, 0], 0),
        rule(2, b'A', 1, [1, 0, 0, 0, 0], 0),
        rule(2, b'B', 3, [0, 1, 2, 0, 0], 0),
        rule(3, b'A', 2, [0, 0, 0, 0, 0], 0),
        rule(3, b'B', 2, [2, 3, 0, 0, 0], 0),
    ];
    Ok(ListGrammar::new(4, Vec::from_slice(heap, &rules)?))
}

// What comes of two words over a sheet without rows: the verdict, the sheet afterwards, and the input found.
#[derive(Drop)]
struct Compared {
    verdict: Verdict,
    sheet: Sheet,
    found: Letters,
}

fn decided(g: &ListGrammar<FootMm>, one: &[u8], two: &[u8]) -> Result<Compared, GrammarFault> {
    let survey = survey(g)?;
    let mut sheet = Sheet::empty();
    let mut work = Workspace::new(&survey, sheet.view());
    let mut found = Letters::new();
    let verdict = decide(&survey, &mut sheet, &mut work, one, two, &mut found);
    Ok(Compared {
        verdict,
        sheet,
        found,
    })
}

// The verdict on two words, and how many rows it leaves.
fn verdict(
    g: &ListGrammar<FootMm>,
    one: &[u8],
    two: &[u8],
) -> Result<(Verdict, u32), GrammarFault> {
    let compared = decided(g, one, two)?;
    Ok((compared.verdict, compared.sheet.count()))
}

// The verdict on two words, and the only row it leaves: its symbol and the only symbol of its word.
fn with_row(
    g: &ListGrammar<FootMm>,
    one: &[u8],
    two: &[u8],
) -> Result<(Verdict, Option<(u8, u8)>), GrammarFault> {
    let compared = decided(g, one, two)?;
    Ok((compared.verdict, only_row(&compared.sheet)))
}

// Whether the words are different, and this input is shown.
fn shows(
    g: &ListGrammar<FootMm>,
    one: &[u8],
    two: &[u8],
    input: &[u8],
) -> Result<bool, GrammarFault> {
    let compared = decided(g, one, two)?;
    let found = compared.found.as_slice();
    Ok(compared.verdict == Verdict::Different && found == input)
}

// The row of a sheet that has just one: its symbol and the only symbol of its word.
fn only_row(sheet: &Sheet) -> Option<(u8, u8)> {
    let (symbol, row) = sheet.next(0)?;
    let [named] = row.as_slice() else {
        return None;
    };
    (sheet.count() == 1).then_some((symbol, *named))
}

// c is b and q is k with an offset; the rows c → b and q → k are written.
#[test]
fn same(rt: HostRuntime) -> Result<(), Fail> {
    let g = seven_symbols(rt.alloc())?;
    assert_eq!(rt; with_row(&g, &[0], &[1]), Ok((Verdict::Same, Some((1, 0)))));
    assert_eq!(rt;
        with_row(&g, &[5, 6], &[6, 5]),
        Ok((Verdict::Same, Some((6, 5))))
    );
    assert_eq!(rt; verdict(&g, &[], &[]), Ok((Verdict::Same, 0)));
    Ok(())
}

// Where the words differ, no row is left.
#[test]
fn different(rt: HostRuntime) -> Result<(), Fail> {
    let g = seven_symbols(rt.alloc())?;
    assert_eq!(rt; verdict(&g, &[0], &[3]), Ok((Verdict::Different, 0)));
    assert_eq!(rt; verdict(&g, &[0], &[4]), Ok((Verdict::Different, 0)));
    assert_eq!(rt; verdict(&g, &[5], &[6]), Ok((Verdict::Different, 0)));
    assert_eq!(rt; verdict(&g, &[], &[0]), Ok((Verdict::Different, 0)));
    Ok(())
}

// The inputs that are shown: b takes SLL and e does not; b and f take L with two tallies, and so do k and q PL; b does
// not take the empty input.
#[test]
fn shown_inputs(rt: HostRuntime) -> Result<(), Fail> {
    let g = seven_symbols(rt.alloc())?;
    assert_eq!(rt; shows(&g, &[0], &[3], b"SLL"), Ok(true));
    assert_eq!(rt; shows(&g, &[0], &[4], b"L"), Ok(true));
    assert_eq!(rt; shows(&g, &[5], &[6], b"PL"), Ok(true));
    assert_eq!(rt; shows(&g, &[], &[0], b""), Ok(true));
    Ok(())
}

// V and Z: both three times X in the first grammar, not the same in the second.
#[test]
fn four_symbols(rt: HostRuntime) -> Result<(), Fail> {
    let g = powers(rt.alloc())?;
    let compared = decided(&g, &[3], &[2]).ok().expect(&rt, "it is accepted");
    assert_eq!(rt; compared.verdict, Verdict::Same);
    let g = no_powers(rt.alloc())?;
    let compared = decided(&g, &[3], &[2]).ok().expect(&rt, "it is accepted");
    assert_eq!(rt; compared.verdict, Verdict::Different);
    Ok(())
}
