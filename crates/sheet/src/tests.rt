ghost use Rattle.std.specs.Prelude.{◌≡◌, ◌<◌, ◌≤◌, false, slice_set, MatchOption};
ghost use Rattle.sheet.specs.Marked.{has};

use crate::*;
use layout::FaultCode;
use std::test::Fail;

// A row of `len` times one symbol.
fn row(symbol: u8, len: u8) -> Row {
    norm::ShortWord {
        symbols: [symbol; MAX_ROW],
        len: len.min(64),
    }
}

// The length of a symbol's row, 0 where it has none.
fn len_of(sheet: &Sheet, symbol: u8) -> u8 {
    sheet.row(symbol).map_or(0, |row| row.len)
}

// The next symbol that has a row.
fn next_in(sheet: &Sheet, from: u8) -> Option<u8> {
    sheet.next(from).map(|(symbol, _)| symbol)
}

// Rows are written, counted, found in their order, and gone when the sheet is cleared.
#[test]
fn written(rt: HostRuntime) -> Result<(), Fail> {
    let mut sheet = Sheet::empty();
    assert_eq!(rt; sheet.count(), 0);
    sheet.write(31, row(1, 3));
    sheet.write(4, row(2, 1));
    sheet.write(31, row(1, 2));
    sheet.write(32, row(5, 5));
    assert_eq!(rt; sheet.count(), 2);
    assert_eq!(rt;
        (len_of(&sheet, 3), len_of(&sheet, 4), len_of(&sheet, 5)),
        (0, 1, 0)
    );
    assert_eq!(rt; (len_of(&sheet, 31), len_of(&sheet, 32)), (2, 0));
    assert_eq!(rt;
        (next_in(&sheet, 0), next_in(&sheet, 5), next_in(&sheet, 32)),
        (Some(4), Some(31), None)
    );
    sheet.clear();
    assert_eq!(rt; (sheet.count(), len_of(&sheet, 4)), (0, 0));
    Ok(())
}

// Writes a row on trial and keeps it where it is one symbol; otherwise the marks are as they were.
fn tried(sheet: &mut Sheet, symbol: u8, row: Row) -> Option<u8>
    ensures { MatchOption result (sheet.new.marks ≡ sheet.old.marks) (λ A. (A ≡ symbol) × (sheet.new.rows ≡ slice_set sheet.old.rows symbol row)) }
{
    let mut guard = MarkGuard::new(sheet);
    guard.write(symbol, row);
    let found = guard.view().row(symbol)?;
    if found.len != 1 {
        return None;
    }
    guard.keep();
    Some(symbol)
}

// What is left early is put back, what is kept stays.
#[test]
fn trials(rt: HostRuntime) -> Result<(), Fail> {
    let mut sheet = Sheet::empty();
    sheet.write(3, row(1, 2));
    assert_eq!(rt; tried(&mut sheet, 32, row(0, 1)), None);
    assert_eq!(rt; tried(&mut sheet, 5, row(0, 2)), None);
    assert_eq!(rt;
        (sheet.count(), len_of(&sheet, 3), len_of(&sheet, 5)),
        (1, 2, 0)
    );
    assert_eq!(rt; tried(&mut sheet, 5, row(0, 1)), Some(5));
    assert_eq!(rt;
        (sheet.count(), len_of(&sheet, 3), len_of(&sheet, 5)),
        (2, 2, 1)
    );
    Ok(())
}

// The rows of a section as a sheet, which another takes over.
#[test]
fn candidates(rt: HostRuntime) -> Result<(), Fail> {
    let bytes = [1, 1, 0, 31, 2, 1, 0];
    let offered = Sheet::of_rows(format::Section {
        count: 2,
        bytes: &bytes,
    });
    assert_eq!(rt;
        (
            len_of(&offered, 0),
            len_of(&offered, 1),
            len_of(&offered, 31)
        ),
        (0, 1, 2)
    );
    let mut sheet = Sheet::empty();
    sheet.write(1, row(0, 3));
    sheet.write(2, row(0, 4));
    sheet.adopt(offered.view());
    assert_eq!(rt;
        (len_of(&sheet, 1), len_of(&sheet, 2), len_of(&sheet, 31)),
        (1, 4, 2)
    );
    assert_eq!(rt; sheet.count(), 3);
    Ok(())
}

// What bytes are refused for as candidate rows over three symbols: the number of the fault and its place.
fn refusal(bytes: &[u8]) -> Option<(u8, usize)> {
    let code = FaultCode::from(candidate_rows(bytes, 3).err()?);
    Some((code.number, code.first))
}

// Whole sections are read; of damaged ones the first fault is told.
#[test]
fn read_candidates(rt: HostRuntime) {
    let lens = candidate_rows(&[2, 1, 1, 0, 2, 2, 0, 1], 3).map(|sheet| (
        len_of(&sheet, 0),
        len_of(&sheet, 1),
        len_of(&sheet, 2),
    ));
    assert_eq!(rt; lens, Ok((0, 1, 2)));
    assert_eq!(rt; refusal(&[0]), None);
    assert_eq!(rt; refusal(&[]), Some((1, 0)));
    assert_eq!(rt; refusal(&[2, 1, 1, 0, 2, 2, 0]), Some((1, 7)));
    assert_eq!(rt; refusal(&[32]), Some((2, 0)));
    assert_eq!(rt; refusal(&[1, 1, 65]), Some((2, 2)));
    assert_eq!(rt; refusal(&[2, 1, 1, 0, 1, 1, 0]), Some((4, 4)));
    assert_eq!(rt; refusal(&[1, 3, 1, 0]), Some((5, 1)));
    assert_eq!(rt; refusal(&[1, 2, 2, 0, 3]), Some((5, 4)));
    assert_eq!(rt; refusal(&[1, 1, 1, 0, 7, 7]), Some((6, 4)));
}
