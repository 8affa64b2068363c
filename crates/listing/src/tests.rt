use crate::list_file;

// Two names b and c, foot lengths, four rules and a row.
const GOOD: [u8; 43] = [
    2, 98, 99, 1, 1, 0, 4, 0, 76, 0, 0, 1, 14, 0, 0, 83, 0, 0, 0, 0, 2, 0, 0, 1, 76, 0, 0, 1, 14,
    0, 1, 83, 0, 0, 0, 0, 2, 0, 1, 1, 1, 1, 0,
];

// Whether the listing of the bytes is the text, with the rest of the buffer as it was.
fn lists(bytes: &[u8], text: &[u8]) -> bool {
    let mut out = [7; 256];
    let length = list_file(bytes, &mut out);
    out.get(..length) == Some(text) && out.iter().skip(length).all(|byte| *byte == 7)
}

// A good file, one whose row does not pass, and no file.
#[test]
fn files_are_listed(rt: HostRuntime) {
    assert!(rt; lists(&GOOD, b"b 1 b\nc 1 b\n"));
    let mut wrong = GOOD;
    wrong[42] = 1;
    assert!(rt; lists(&wrong, b"refused 18 1 0\n"));
    assert!(rt; lists(&[], b"refused 1 0 0\n"));
}
