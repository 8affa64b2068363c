// A comparer over the grammar of a file.
ghost use Rattle.std.specs.Prelude.{◌≡◌, Ok};
ghost use Rattle.layout.specs.Contents.{Contents, Legal, rows_bytes, encode};
ghost use Rattle.format.specs.Views.{Shows};
ghost use Rattle.file_grammar.specs.Filed.{held};
ghost use Rattle.listing.specs.Opened.{Opened};

use calls::CallFault;
use comparer::Comparer;
use file_grammar::FileGrammar;
use format::{Checked, FileTally};

// The section of rows: the count, and the bytes of the rows, at the end of the file's bytes.
fn rows_section<'a>(file: Checked<'_>, bytes: &'a [u8]) -> &'a [u8]
    ensures { (c : Contents) → Shows file.entry c → bytes.now ≡ encode c → result.now ≡ rows_bytes c.rows }
{
    let length = file.rows.bytes.len().saturating_add(1);
    bytes
        .get(bytes.len().saturating_sub(length)..)
        .unwrap_or(&[])
}

// A new comparer over the grammar of a checked file, which is offered the file's rows.
pub(crate) fn open<T: FileTally>(file: Checked<'_>, bytes: &[u8]) -> Result<Comparer<T>, CallFault>
    ensures { (c : Contents) → Legal c → Shows file.entry c → bytes.now ≡ encode c → Opened T.Tally.group (held T.FileTally.made (Ok c)) c.rows result }
{
    let mut comparer = Comparer::new(&FileGrammar::<T>::of_file(file));
    comparer.offer(rows_section(file, bytes))?;
    Ok(comparer)
}
