use crate::*;
use calls::CallFault;
use file_grammar::FileGrammar;
use layout::Fault;
use sheet::candidate_rows;
use survey::survey;
use tally::{FootMm, LastMm, OddOnes, Pair, Untallied};

// Two names b and c, foot lengths, four rules and a row.
const GOOD: [u8; 43] = [
    2, 98, 99, 1, 1, 0, 4, 0, 76, 0, 0, 1, 14, 0, 0, 83, 0, 0, 0, 0, 2, 0, 0, 1, 76, 0, 0, 1, 14,
    0, 1, 83, 0, 0, 0, 0, 2, 0, 1, 1, 1, 1, 0,
];

// A file's grammar and rows are written back, byte for byte, and nothing behind them.
#[test]
fn file_is_written_back(rt: HostRuntime) {
    let survey = survey(&FileGrammar::<FootMm>::new(&GOOD))
        .ok()
        .expect(&rt, "it is accepted");
    let sheet = candidate_rows(&GOOD[39..], 2)
        .ok()
        .expect(&rt, "it is a section of rows");
    let mut out = [9; 44];
    assert_eq!(rt; write_into(&survey, sheet.view(), b"bc", &mut out), 43);
    assert!(rt; out.starts_with(&GOOD));
    assert_eq!(rt; out[43], 9);
}

// As many names as symbols, each of which may be one, none twice.
#[test]
fn names_are_checked(rt: HostRuntime) {
    let refused = |count, names: &[u8]| check_names::<FootMm>(count, names).err();
    assert_eq!(rt; refused(3, b"b0z"), None);
    assert_eq!(rt; refused(2, b"b0z"), Some(CallFault::File(Fault::Limit(0))));
    assert_eq!(rt;
        refused(3, b"b0Z"),
        Some(CallFault::File(Fault::Unallowed(3)))
    );
    assert_eq!(rt;
        refused(3, b"bzb"),
        Some(CallFault::File(Fault::Unallowed(3)))
    );
}

// A file holds at most two kinds, that rise.
#[test]
fn kinds_are_checked(rt: HostRuntime) {
    let kinds = Some(CallFault::File(Fault::Kinds));
    assert_eq!(rt; check_names::<Untallied>(1, b"b").err(), None);
    assert_eq!(rt; check_names::<Pair<FootMm, OddOnes>>(1, b"b").err(), None);
    assert_eq!(rt; check_names::<Pair<LastMm, FootMm>>(1, b"b").err(), kinds);
    assert_eq!(rt; check_names::<Pair<FootMm, FootMm>>(1, b"b").err(), kinds);
    assert_eq!(rt;
        check_names::<Pair<FootMm, Pair<LastMm, OddOnes>>>(1, b"b").err(),
        kinds
    );
}

// The room is that of the longest file.
#[test]
fn room_is_checked(rt: HostRuntime) {
    assert_eq!(rt; check_room(14_565).err(), None);
    assert_eq!(rt;
        check_room(14_564).err(),
        Some(CallFault::ShortCopy(14_564))
    );
}
