// Values as they are written on a line; a minus sign alone stands for none.
use crate::misread::Misread;
use std::alloc::Global;

// The bytes of a field in hexadecimal.
pub fn bytes(heap: Global, field: &str) -> Result<Vec<u8>, Misread> {
    if field == "-" {
        return Ok(Vec::new(heap));
    }
    Ok(hex::decode(heap, field)?)
}

// The word of symbols in decimal, joined by dots.
pub fn word(heap: Global, field: &str) -> Result<Vec<u8>, Misread> {
    let mut word = Vec::new(heap);
    if field == "-" {
        return Ok(word);
    }
    for symbol in field.split('.') {
        word.push(symbol.parse()?)?;
    }
    Ok(word)
}

// The input of letters, of one letter so many times as in `A*3`, or of bytes in hexadecimal behind `0x`.
pub fn input(heap: Global, field: &str) -> Result<Vec<u8>, Misread> {
    if let Some(digits) = field.strip_prefix("0x") {
        return bytes(heap, digits);
    }
    match field.split_once('*') {
        Some((letter, times)) => repeated(heap, letter, times),
        None if field == "-" => Ok(Vec::new(heap)),
        None => Ok(Vec::from_slice(heap, field.as_bytes())?),
    }
}

// One letter, so many times.
fn repeated(heap: Global, letter: &str, times: &str) -> Result<Vec<u8>, Misread> {
    match letter.as_bytes() {
        [letter] => Ok(vec![in heap; *letter; times.parse()?]?),
        _ => Err(Misread::Malformed),
    }
}
