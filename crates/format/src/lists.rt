// The sections of names and of kinds.
// Each section here and of rules and rows has its own loop: one for all would take each reading as a trait
// with ghost members and an impl, which is no plainer than three lines.
ghost use Rattle.std.specs.Prelude.{◌≡◌, ℕ, List, reverse};
ghost use Rattle.layout.specs.Reading.{name, kind, names, kinds, absent, named};
ghost use Rattle.format.specs.Views.{Reads, lent, Behind};

use crate::reader::Reader;
use layout::{Fault, Kind};

// Whether the byte may be a name: a to z, 0 to 9. A test, no conversion.
fn is_name(byte: u8) -> bool
    ensures { result ≡ named byte }
{
    byte.is_ascii_lowercase() || byte.is_ascii_digit()
}

// Whether the byte is none of those before it.
fn is_absent(byte: u8, before: &[u8]) -> bool
    ensures { result ≡ absent byte (reverse before.now) }
{
    !before.contains(&byte)
}

impl<'a> Reader<'a> {
    // A name, none of those before it.
    fn name(&mut self, before: &[u8]) -> Result<u8, Fault>
        ensures { Reads (λ t. name t (reverse before.now)) self.old result self.new }
    {
        let place = self.place();
        let name = self.byte()?;
        if is_name(name) && is_absent(name, before) {
            Ok(name)
        } else {
            Err(Fault::Unallowed(place))
        }
    }

    // A kind, above the one before it; None comes before every Some. Its byte is handed on, since the section
    // is lent as bytes.
    fn kind(&mut self, before: Option<u8>) -> Result<u8, Fault>
        ensures { Behind (λ (x : ℕ). x) before (λ xs. Reads (λ t. kind t xs) self.old result self.new) }
    {
        let place = self.place();
        let kind = self.byte()?;
        if Kind::try_from(kind).is_ok() && before < Some(kind) {
            Ok(kind)
        } else {
            Err(Fault::Unallowed(place))
        }
    }

    // The section of names.
    pub(crate) fn names(&mut self) -> Result<&'a [u8], Fault>
        ensures { Reads names self.old (lent result) self.new }
    {
        let count = self.count_within(1, 32)?;
        let body = self.left;
        // One behind the other: nothing is indexed.
        for _ in 0..count {
            self.name(self.read_of(body))?;
        }
        Ok(self.read_of(body))
    }

    // The section of kinds.
    pub(crate) fn kinds(&mut self) -> Result<&'a [u8], Fault>
        ensures { Reads kinds self.old (lent result) self.new }
    {
        let count = self.count_within(0, 2)?;
        let body = self.left;
        let mut before = None;
        // One behind the other: nothing is indexed.
        for _ in 0..count {
            before = Some(self.kind(before)?);
        }
        Ok(self.read_of(body))
    }
}
