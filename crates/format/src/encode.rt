// Writes the bytes of a file into a lent buffer.
ghost use Rattle.std.specs.Prelude.{◌≡◌, ℕ, List};
ghost use Rattle.layout.specs.Contents.{Legal, encode, joined, four};
ghost use Rattle.format.specs.Views.{row_of};
ghost use Rattle.format.specs.Lent.{Puts, Wrote, rule_of, contents_of, contents_by, counted, low_rule, low_row, low_encode, filled_len, filled, Canonical};

use crate::contents::{Entry, EntryContents, FileContents, RuleEntry};
use crate::row::Row;

// A lent buffer, and the place in it where the next bytes go; behind its end bytes are only counted.
#[derive(Drop)]
struct Writer<'a> {
    out: &'a mut [u8],
    at: usize,
}

// What has bytes in a file.
trait Encode {
    // Its bytes.
    ghost bytes: { Self → List ℕ };

    fn write_to(&self, to: &mut Writer<'_>)
        ensures { Puts to.old (bytes self.now) to.new };
}

impl Writer<'_> {
    // Writes the bytes where there is room.
    fn put(&mut self, bytes: &[u8])
        ensures { Puts self.old bytes.now self.new }
    {
        let at = self.at;
        let count = bytes.len();
        if at <= self.out.len() && count <= self.out.len() - at {
            self.out[at..at + count].copy_from_slice(bytes);
        }
        self.at = at.saturating_add(count);
    }

    // Bytes behind the low byte of their count.
    fn put_counted(&mut self, bytes: &[u8])
        ensures { Puts self.old (counted bytes.now) self.new }
    {
        self.put(&[(bytes.len() % 256) as u8]);
        self.put(bytes);
    }

    // Items, one behind the other.
    fn put_all<T: Encode>(&mut self, items: &[T])
        ensures { Puts self.old (joined T.Encode.bytes items.now) self.new }
    {
        for item in items {
            item.write_to(self);
        }
    }

    // Rules of a file with so many kinds, one behind the other.
    fn put_rules<R: Entry>(&mut self, kinds: usize, rules: &[R])
        ensures { Puts self.old (joined (λ entry. low_rule (R.rule kinds entry)) rules.now) self.new }
    {
        for entry in rules {
            entry.lend(kinds).write_to(self);
        }
    }
}

// Four bytes, high first.
impl Encode for u32 {
    ghost bytes = { four };

    fn write_to(&self, to: &mut Writer<'_>) {
        to.put(&self.to_be_bytes());
    }
}

// The symbol and the letter, the numbers, and the word behind its length.
impl Encode for RuleEntry<'_> {
    ghost bytes = { λ rule. low_rule (rule_of rule) };

    fn write_to(&self, to: &mut Writer<'_>) {
        to.put(&[self.symbol, self.letter]);
        to.put_all(self.numbers);
        to.put_counted(self.word);
    }
}

// The symbol, and the word behind its length.
impl Encode for Row<'_> {
    ghost bytes = { λ row. low_row (row_of row) };

    fn write_to(&self, to: &mut Writer<'_>) {
        to.put(&[self.symbol]);
        to.put_counted(self.word);
    }
}

// The four sections, each behind its count.
impl<R: Entry> Encode for EntryContents<'_, R> {
    ghost bytes = { λ contents. low_encode (contents_by R.Entry.rule contents) };

    fn write_to(&self, to: &mut Writer<'_>) {
        to.put_counted(self.names);
        to.put_counted(self.kinds);
        let count = (self.rules.len() % 65_536) as u16;
        to.put(&count.to_be_bytes());
        to.put_rules(self.kinds.len(), self.rules);
        to.put(&[(self.rows.len() % 256) as u8]);
        to.put_all(self.rows);
    }
}

// Writes the contents from the start of the buffer on, and answers how many bytes they have.
fn put_contents<R: Entry>(out: &mut [u8], contents: &EntryContents<'_, R>) -> usize
    ensures { Wrote out.old 0 (low_encode (contents_by R.rule contents.now)) result out.new }
{
    let mut to = Writer { out, at: 0 };
    contents.write_to(&mut to);
    to.at
}

// Writes the bytes of the contents at the start of the buffer and answers how many they are.
// Where they do not fit it answers `None`, and the buffer is as it was. Of counts and lengths the low
// bytes are written; of legal contents that is their encoding, which the check reads back.
pub fn encode_entries_into<R: Entry>(
    contents: &EntryContents<'_, R>,
    out: &mut [u8],
) -> Option<usize>
    ensures value { Legal (contents_by R.rule contents.now) → result ≡ filled_len (encode (contents_by R.rule contents.now)) out.old }
    ensures out { Legal (contents_by R.rule contents.now) → out.new ≡ filled (encode (contents_by R.rule contents.now)) out.old }
    ensures low_value { result ≡ filled_len (low_encode (contents_by R.rule contents.now)) out.old }
    ensures low_out { out.new ≡ filled (low_encode (contents_by R.rule contents.now)) out.old }
    ensures law { Legal (contents_by R.rule contents.now) → Canonical (contents_by R.rule contents.now) }
{
    // Written nowhere, the bytes are only counted.
    let needed = put_contents(&mut [], contents);
    if needed > out.len() {
        return None;
    }
    Some(put_contents(out, contents))
}

// The same, of contents whose rules are lent. It has no type parameter, so that it can be handed on
// as a function pointer.
pub fn encode_into(contents: &FileContents<'_>, out: &mut [u8]) -> Option<usize>
    ensures value { Legal (contents_of contents.now) → result ≡ filled_len (encode (contents_of contents.now)) out.old }
    ensures out { Legal (contents_of contents.now) → out.new ≡ filled (encode (contents_of contents.now)) out.old }
    ensures low_value { result ≡ filled_len (low_encode (contents_of contents.now)) out.old }
    ensures low_out { out.new ≡ filled (low_encode (contents_of contents.now)) out.old }
    ensures law { Legal (contents_of contents.now) → Canonical (contents_of contents.now) }
{
    let contents = EntryContents {
        names: contents.names,
        kinds: contents.kinds,
        rules: contents.rules,
        rows: contents.rows,
    };
    encode_entries_into(&contents, out)
}
