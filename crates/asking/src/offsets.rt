// Offsets as they are written behind the word of a row.
ghost use Rattle.std.specs.Prelude.{◌≡◌, ◌++◌, OnOk};
ghost use Rattle.layout.specs.Kinds.{kind_text};
ghost use Rattle.asking.specs.Texts.{kind_of as kind_by, sign_text, size_of, part_text, offset_text};

use crate::numbers::push_number;
use layout::Kind;
use std::alloc::AllocError;

// The kind of a byte; a checked file has no other kinds than the three.
fn kind_of(byte: u8) -> Kind
    ensures { result ≡ kind_by byte }
{
    Kind::try_from(byte).unwrap_or(Kind::OddOnes)
}

// The word of a kind.
fn kind_word(kind: Kind) -> &'static [u8]
    ensures { result.now ≡ kind_text kind }
{
    match kind {
        Kind::Foot => b"foot",
        Kind::Last => b"last",
        Kind::OddOnes => b"odd",
    }
}

// The sign of a number that is not zero: odd ones are joined; a length has the sign that makes it small.
fn sign(kind: Kind, number: u32) -> &'static [u8]
    ensures { result.now ≡ sign_text kind number }
{
    match kind {
        Kind::OddOnes => b" ^ ",
        _ if number < 1 << 31 => b" + ",
        _ => b" - ",
    }
}

// The number behind that sign.
fn size(kind: Kind, number: u32) -> u32
    ensures { result ≡ size_of kind number }
{
    match kind {
        Kind::OddOnes => number,
        _ if number < 1 << 31 => number,
        _ => number.wrapping_neg(),
    }
}

// Writes the part of one kind, with the kind's word behind it where it is named.
fn push_part(text: &mut Vec<u8>, named: bool, kind: Kind, number: u32) -> Result<(), AllocError>
    ensures { OnOk result (text.new.items ≡ text.old.items ++ part_text named kind number) }
{
    if number == 0 {
        return Ok(());
    }
    text.extend_from_slice(sign(kind, number))?;
    push_number(text, size(kind, number))?;
    if named {
        text.extend_from_slice(b" ")?;
        text.extend_from_slice(kind_word(kind))?;
    }
    Ok(())
}

// Writes an offset: of two kinds each part has its kind's word.
pub(crate) fn push_offset(
    text: &mut Vec<u8>,
    kinds: &[u8],
    numbers: &[u32],
) -> Result<(), AllocError>
    ensures { OnOk result (text.new.items ≡ text.old.items ++ offset_text kinds.now numbers.now) }
{
    let named = kinds.len() > 1;
    for (at, kind) in kinds.iter().enumerate() {
        let number = numbers.get(at).copied().unwrap_or(0);
        push_part(text, named, kind_of(*kind), number)?;
    }
    Ok(())
}
