// Calls to new comparers over the example grammar.
use calls::{Answer, CallFault};
use comparer::Comparer;
use grammar::{ListGrammar, MAX_INPUT};
use layout::FaultCode;
use std::io;
use tally::FootMm;

// Pairs of words that are compared, each to a new comparer: as they are written, and their symbols.
const PAIRS: [(&str, &[u8], &[u8]); 7] = [
    ("b c", &[0], &[1]),
    ("b e", &[0], &[3]),
    ("b f", &[0], &[4]),
    ("kq qk", &[5, 6], &[6, 5]),
    ("k q", &[5], &[6]),
    ("- -", &[], &[]),
    ("- b", &[], &[0]),
];

// Rows that are offered, each to a new comparer: as they are written, and as a section.
const OFFERS: [(&str, &[u8]); 4] = [
    ("c = b", &[1, 1, 1, 0]),
    ("e = b", &[1, 3, 1, 0]),
    ("b = c", &[1, 0, 1, 1]),
    ("q = bb", &[1, 6, 2, 0, 0]),
];

// Says how a comparison came out: with how many rows, or with the input that is shown.
fn say_answer(
    rt: &impl Print,
    pair: &str,
    answer: Result<Answer, CallFault>,
    rows: &[u8],
    out: &[u8],
) -> io::Result<()> {
    match answer {
        Ok(Answer::Same) => {
            let count = rows.first().copied().unwrap_or(0);
            println!(rt; "compare {pair}: same, by {count} rows")
        }
        Ok(Answer::Different(length)) => {
            let input = std::str::from_utf8(out.get(..length).unwrap_or(&[])).unwrap_or("?");
            println!(rt; "compare {pair}: different, by '{input}'")
        }
        Err(fault) => {
            let code = FaultCode::from(fault);
            println!(rt; "compare {pair}: refused {code}")
        }
    }
}

// Compares the pairs.
fn compare_pairs(rt: &impl Print, g: &ListGrammar<FootMm>) -> io::Result<()> {
    for (pair, one, two) in PAIRS {
        let mut comparer = Comparer::new(g);
        let mut out = [0; MAX_INPUT];
        let answer = comparer.compare(one, two, &mut out);
        let mut rows = [0; calls::MIN_COPY];
        let length = comparer.copy_rows(&mut rows).unwrap_or(0);
        let rows = rows.get(..length).unwrap_or(&[]);
        say_answer(rt, pair, answer, rows, &out)?;
    }
    Ok(())
}

// Offers the rows.
fn offer_rows(rt: &impl Print, g: &ListGrammar<FootMm>) -> io::Result<()> {
    for (row, section) in OFFERS {
        let mut comparer = Comparer::new(g);
        match comparer.offer(section) {
            Ok(()) => println!(rt; "offer {row}: taken")?,
            Err(fault) => {
                let code = FaultCode::from(fault);
                println!(rt; "offer {row}: refused {code}")?
            }
        }
    }
    Ok(())
}

// Says what comes of the comparisons and the offers.
pub fn make_calls(rt: &impl Print, g: &ListGrammar<FootMm>) -> io::Result<()> {
    compare_pairs(rt, g)?;
    offer_rows(rt, g)
}
