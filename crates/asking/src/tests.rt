use crate::*;
use calls::CallFault;
use format::{Checked, FileTally, check_file};
use grammar::MAX_INPUT;
use std::alloc::Global;
use std::test::Fail;
use tally::{FootMm, OddOnes, Pair, Untallied};

// Seven symbols b c d e f k q over foot lengths: a rule on each line.
const SEVEN: [u8; 112] = [
    7, 98, 99, 100, 101, 102, 107, 113, 1, 1, 0, 12, //
    0, 76, 0, 0, 1, 14, 0, //
    0, 83, 0, 0, 0, 0, 2, 0, 0, //
    1, 76, 0, 0, 1, 14, 0, //
    1, 83, 0, 0, 0, 0, 2, 0, 1, //
    2, 76, 0, 0, 1, 14, 1, 0, //
    2, 83, 0, 0, 0, 0, 3, 0, 0, 0, //
    3, 76, 0, 0, 1, 14, 0, //
    3, 83, 0, 0, 0, 0, 3, 0, 0, 0, //
    4, 76, 0, 0, 1, 9, 0, //
    4, 83, 0, 0, 0, 0, 2, 0, 0, //
    5, 80, 0, 0, 0, 10, 1, 0, //
    6, 80, 0, 0, 0, 0, 1, 0, //
    0,
];

// A symbol x that takes L with nothing.
const PLAIN: [u8; 9] = [1, 120, 0, 0, 1, 0, 76, 0, 0];

// Two symbols a and b that take L, with two numbers each: 10 and 3, and 0 and 0.
const TWO_KINDS: [u8; 31] = [
    2, 97, 98, 2, 1, 3, 0, 2, //
    0, 76, 0, 0, 0, 10, 0, 0, 0, 3, 0, //
    1, 76, 0, 0, 0, 0, 0, 0, 0, 0, 0, //
    0,
];

// Two words of one file, the second raised.
fn words(heap: Global, file: Checked, one: &[u8], two: &[u8]) -> Result<(Vec<u8>, Vec<u8>), Fail> {
    let one = spell(heap, file.names, one).map_err(|_| "no first word")?;
    let two = spell(heap, file.names, two).map_err(|_| "no second word")?;
    let two = raise_word(
        heap,
        &two,
        u8::try_from(file.names.len()).unwrap_or(u8::MAX),
    )?;
    Ok((one, two))
}

// The text of an answer about two words of one file.
fn told<T: FileTally>(
    heap: Global,
    file: Checked,
    one: &[u8],
    two: &[u8],
    answered: Result<Answered<T>, CallFault>,
    out: &[u8],
) -> Result<Vec<u8>, Fail> {
    let labels = Labels {
        first: file.names,
        second: file.names,
        kinds: file.kinds,
    };
    match answered {
        Ok(answered) => Ok(answer_text(heap, &labels, one, two, &answered, out)?),
        Err(_) => Ok(Vec::new(heap)),
    }
}

// The answer about two words of the seven symbols.
fn seven(heap: Global, one: &[u8], two: &[u8]) -> Result<Vec<u8>, Fail> {
    let file = check_file::<FootMm>(&SEVEN).map_err(|_| "the file is refused")?;
    let (first, second) = words(heap, file, one, two)?;
    let mut out = [0; MAX_INPUT];
    let answered = ask_files::<FootMm>(file, file, &first, &second, &mut out);
    told(heap, file, one, two, answered, &out)
}

// Two words of the seven symbols.
#[test]
fn seven_symbols(rt: HostRuntime) -> Result<(), Fail> {
    let heap = rt.alloc();
    let same = seven(heap, b"b", b"c")?;
    assert_eq!(rt; same.as_slice(), b"same\n2.b = 1.b\n2.c = 1.b\n".as_slice());
    let different = seven(heap, b"k", b"q")?;
    assert_eq!(rt;
        different.as_slice(),
        b"different PL\nk: taken 280\nq: taken 270\n".as_slice()
    );
    let empty = seven(heap, b"-", b"b")?;
    assert_eq!(rt;
        empty.as_slice(),
        b"different -\n-: taken 0\nb: not taken\n".as_slice()
    );
    Ok(())
}

// No kinds.
#[test]
fn no_kinds(rt: HostRuntime) -> Result<(), Fail> {
    let heap = rt.alloc();
    let file = check_file::<Untallied>(&PLAIN).map_err(|_| "the file is refused")?;
    let (one, two) = words(heap, file, b"x", b"xx")?;
    let mut out = [0; MAX_INPUT];
    let answered = ask_files::<Untallied>(file, file, &one, &two, &mut out);
    let text = told(heap, file, b"x", b"xx", answered, &out)?;
    assert_eq!(rt;
        text.as_slice(),
        b"different L\nx: taken\nxx: not taken\n".as_slice()
    );
    Ok(())
}

// Two kinds.
#[test]
fn two_kinds(rt: HostRuntime) -> Result<(), Fail> {
    let heap = rt.alloc();
    let file = check_file::<Pair<FootMm, OddOnes>>(&TWO_KINDS).map_err(|_| "the file is refused")?;
    let (one, two) = words(heap, file, b"ab", b"ba")?;
    let mut out = [0; MAX_INPUT];
    let answered = ask_files::<Pair<FootMm, OddOnes>>(file, file, &one, &two, &mut out);
    let text = told(heap, file, b"ab", b"ba", answered, &out)?;
    let rows = b"same\n2.a = 1.b + 10 foot ^ 3 odd\n2.b = 1.a - 10 foot ^ 3 odd\n";
    assert_eq!(rt; text.as_slice(), rows.as_slice());
    Ok(())
}

// A byte that is no name is told with its place.
#[test]
fn misspelled(rt: HostRuntime) {
    assert_eq!(rt;
        spell(rt.alloc(), b"bc", b"bcd").err(),
        Some(Misspelled::NoName(2))
    );
}
