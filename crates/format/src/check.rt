// The check of a file.
ghost use Rattle.layout.specs.Example.{Examples};
ghost use Rattle.layout.specs.Laws.{FileLaw, OneContents};
ghost use Rattle.layout.specs.Reading.{checked};
ghost use Rattle.format.specs.Views.{Answers};

use crate::file_tally::{FileTally, has_kinds};
use crate::reader::Reader;
use crate::row::Checked;
use layout::Fault;

// The parts of a file, or the first fault in reading order.
fn parts<T: FileTally>(bytes: &[u8]) -> Result<Checked<'_>, Fault>
    ensures { Answers (checked T.FileTally.kinds bytes.now) result }
{
    let mut reader = Reader {
        total: bytes.len(),
        left: bytes,
    };
    let names = reader.names()?;
    let kinds = reader.kinds()?;
    if !has_kinds::<T>(kinds) {
        return Err(Fault::Kinds);
    }
    let count = names.len() as u8;
    let rules = reader.rules(count, kinds.len() as u8)?;
    let rows = reader.rows(count)?;
    reader.end()?;
    Ok(Checked {
        names,
        kinds,
        rules,
        rows,
    })
}

// Checks the bytes of a file for a tally of the type T: the parts of the file, or the first fault
// in reading order. Each byte is looked at once, but for names, which are compared with those before.
// The bytes are accepted just if they encode legal contents with the tally's kinds, and then one only;
// a fault says what is wrong with them, and where.
pub fn check_file<T: FileTally>(bytes: &[u8]) -> Result<Checked<'_>, Fault>
    ensures value { Answers (checked T.FileTally.kinds bytes.now) result }
    ensures law { FileLaw T.FileTally.kinds bytes.now }
    ensures one { OneContents }
    ensures examples { Examples }
{
    parts::<T>(bytes)
}
