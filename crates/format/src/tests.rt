use crate::*;
use layout::Fault;
use tally::{FootMm, LastMm};

// A rule of one number.
fn rule<'a>(symbol: u8, letter: u8, numbers: &'a [u32], word: &'a [u8]) -> RuleEntry<'a> {
    RuleEntry {
        symbol,
        letter,
        numbers,
        word,
    }
}

// Two names, foot lengths, four rules and a row: 43 bytes, which the check reads back.
#[test]
fn small_file_there_and_back(rt: HostRuntime) {
    let rules = [
        rule(0, b'L', &[270], &[]),
        rule(0, b'S', &[0], &[0, 0]),
        rule(1, b'L', &[270], &[]),
        rule(1, b'S', &[0], &[0, 1]),
    ];
    let rows = [Row {
        symbol: 1,
        word: &[0],
    }];
    let contents = LentContents {
        names: b"bc",
        kinds: &[1],
        rules: &rules,
        rows: &rows,
    };
    let mut out = [9; 43];
    assert_eq!(rt; encode_entries_into(&contents, &mut out), Some(43));
    assert!(rt; out.starts_with(b"\x02bc\x01\x01\x00\x04\x00L"));
    assert!(rt; out.ends_with(&[1, 1, 1, 0]));
    match check_file::<FootMm>(&out) {
        Ok(file) => assert_eq!(rt;
            (file.names, file.rules.count, file.rows.count),
            (&b"bc"[..], 4, 1)
        ),
        Err(_) => assert!(rt; false),
    }
    match check_file::<LastMm>(&out) {
        Ok(_) => assert!(rt; false),
        Err(fault) => assert_eq!(rt; fault, Fault::Kinds),
    }
}

// A rule of one number that owns its word, of up to two symbols.
fn owned(symbol: u8, letter: u8, number: u32, length: u8, last: u8) -> OwnedEntry {
    OwnedEntry {
        symbol,
        letter,
        numbers: [number, 99],
        length,
        symbols: [0, last, 98, 97],
    }
}

// The same 43 bytes from rules that own theirs; what is behind the kinds and the lengths is not written.
#[test]
fn owned_rules_have_the_same_bytes(rt: HostRuntime) {
    let rules = [
        owned(0, b'L', 270, 0, 0),
        owned(0, b'S', 0, 2, 0),
        owned(1, b'L', 270, 0, 0),
        owned(1, b'S', 0, 2, 1),
    ];
    let rows = [Row {
        symbol: 1,
        word: &[0],
    }];
    let contents = OwnedContents {
        names: b"bc",
        kinds: &[1],
        rules: &rules,
        rows: &rows,
    };
    let mut out = [9; 43];
    assert_eq!(rt; encode_entries_into(&contents, &mut out), Some(43));
    assert!(rt;
        out.starts_with(
            b"\x02bc\x01\x01\x00\x04\x00L\x00\x00\x01\x0e\x00\x00S\x00\x00\x00\x00\x02\x00\x00"
        )
    );
    assert!(rt;
        out.ends_with(b"\x01L\x00\x00\x01\x0e\x00\x01S\x00\x00\x00\x00\x02\x00\x01\x01\x01\x01\x00")
    );
}

// A buffer of one byte less stays as it was; of one more, its last byte does.
#[test]
fn what_has_no_room_stays(rt: HostRuntime) {
    let contents = LentContents {
        names: b"b",
        kinds: &[],
        rules: &[],
        rows: &[],
    };
    let mut short = [9; 5];
    assert_eq!(rt; encode_entries_into(&contents, &mut short), None);
    assert_eq!(rt; short, [9; 5]);
    let mut long = [9; 7];
    assert_eq!(rt; encode_entries_into(&contents, &mut long), Some(6));
    assert_eq!(rt; long, [1, b'b', 0, 0, 0, 0, 9]);
}

// Contents written by a function that is handed on.
fn written(
    by: fn(&FileContents<'_>, &mut [u8]) -> Option<usize>,
    contents: &FileContents<'_>,
    out: &mut [u8],
) -> Option<usize>
    requires { IsAlwaysCallable by }
{
    by(contents, out)
}

// `encode_into` writes the same 43 bytes, also where it is handed on; a short buffer stays.
#[test]
fn lent_rules_have_the_same_bytes(rt: HostRuntime) {
    let rules = [
        rule(0, b'L', &[270], &[]),
        rule(0, b'S', &[0], &[0, 0]),
        rule(1, b'L', &[270], &[]),
        rule(1, b'S', &[0], &[0, 1]),
    ];
    let rows = [Row {
        symbol: 1,
        word: &[0],
    }];
    let contents = FileContents {
        names: b"bc",
        kinds: &[1],
        rules: &rules,
        rows: &rows,
    };
    let mut out = [9; 44];
    assert_eq!(rt; encode_into(&contents, &mut out), Some(43));
    assert!(rt;
        out.starts_with(
            b"\x02bc\x01\x01\x00\x04\x00L\x00\x00\x01\x0e\x00\x00S\x00\x00\x00\x00\x02\x00\x00"
        )
    );
    assert!(rt;
        out.ends_with(
            b"\x01L\x00\x00\x01\x0e\x00\x01S\x00\x00\x00\x00\x02\x00\x01\x01\x01\x01\x00\x09"
        )
    );
    let mut short = [9; 42];
    assert_eq!(rt; written(encode_into, &contents, &mut short), None);
    assert_eq!(rt; short, [9; 42]);
    let mut long = [9; 44];
    assert_eq!(rt; written(encode_into, &contents, &mut long), Some(43));
    assert_eq!(rt; long, out);
}

// Contents with no rules: a buffer of one byte less stays as it was; of one more, its last byte does.
#[test]
fn lent_rules_may_be_none(rt: HostRuntime) {
    let contents = FileContents {
        names: b"b",
        kinds: &[],
        rules: &[],
        rows: &[],
    };
    let mut short = [9; 5];
    assert_eq!(rt; encode_into(&contents, &mut short), None);
    assert_eq!(rt; short, [9; 5]);
    let mut long = [9; 7];
    assert_eq!(rt; encode_into(&contents, &mut long), Some(6));
    assert_eq!(rt; long, [1, b'b', 0, 0, 0, 0, 9]);
}

// The rows of a section come one by one, and none behind the last.
#[test]
fn rows_one_by_one(rt: HostRuntime) {
    let bytes = [2, 1, 1, 0, 2, 2, 0, 1, 9];
    match rows_section(9, &bytes, 3) {
        Ok((section, left)) => {
            let mut rows = section.rows();
            let first = Row {
                symbol: 1,
                word: &[0],
            };
            let second = Row {
                symbol: 2,
                word: &[0, 1],
            };
            assert_eq!(rt; rows.next(), Some(first));
            assert_eq!(rt; rows.next(), Some(second));
            assert_eq!(rt; rows.next(), None);
            assert_eq!(rt; left, &[9][..]);
        }
        Err(_) => assert!(rt; false),
    }
}
