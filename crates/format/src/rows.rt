// The section of rows, one reader for files and offers.
ghost use Rattle.std.specs.Prelude.{◌≡◌, length};
ghost use Rattle.layout.specs.Contents.{row_bytes};
ghost use Rattle.layout.specs.Laws.{RowsLaw};
ghost use Rattle.layout.specs.Reading.{row, rows};
ghost use Rattle.std.specs.Iterator.{at_most};
ghost use Rattle.format.specs.Views.{Reads, lent_row, row_head, Behind, Judged, ReadsItems, TookItems, GivesRow};

use crate::reader::Reader;
use crate::row::{Row, Section};
use layout::Fault;

impl<'a> Reader<'a> {
    // Judges the symbol of the row that comes next: below `count`, and after the row before it. Rules have
    // another `before`, so the two stay apart.
    fn judge_symbol(&self, symbol: u8, count: u8, before: Option<u8>) -> Result<(), Fault>
        ensures { Behind row_head before (λ xs. Judged self.now.total count xs symbol self.now.left.now result) }
    {
        if symbol >= count {
            return Err(Fault::Symbol(self.place()));
        }
        // None comes before every Some.
        if before >= Some(symbol) {
            return Err(Fault::Order(self.place()));
        }
        Ok(())
    }

    // A row: its symbol, after the one before it, its length 1 to 64 and that many symbols. A wrong
    // symbol is told before the bytes are found to end.
    fn row(&mut self, count: u8, before: Option<u8>) -> Result<Row<'a>, Fault>
        ensures { Behind row_head before (λ xs. Reads (λ t. row t count xs) self.old (lent_row result) self.new) }
    {
        match self.left {
            [symbol, length, rest @ ..] => {
                self.judge_symbol(*symbol, count, before)?;
                if !(1..=64).contains(length) {
                    // The length lies just before the rest.
                    return Err(Fault::Limit(self.total.saturating_sub(rest.len() + 1)));
                }
                self.left = rest;
                let word = self.word(count, *length)?;
                Ok(Row {
                    symbol: *symbol,
                    word,
                })
            }
            [symbol] => {
                self.judge_symbol(*symbol, count, before)?;
                Err(Fault::Short(self.total))
            }
            [] => Err(Fault::Short(self.total)),
        }
    }

    // The section of rows over `count` symbols.
    pub(crate) fn rows(&mut self, count: u8) -> Result<Section<'a>, Fault>
        ensures { ReadsItems row_bytes (λ t. rows t count) self.old result self.new }
    {
        let size = self.count_within(0, 31)?;
        let body = self.left;
        let mut before = None;
        // One behind the other: nothing is indexed.
        for _ in 0..size {
            before = Some(self.row(count, before)?.symbol);
        }
        Ok(Section {
            count: size as usize,
            bytes: self.read_of(body),
        })
    }
}

// Reads the section of rows over `count` symbols that the bytes begin with, the last ones of `total`: the
// rows and what is left behind them, or the first fault in reading order. Just legal rows are read.
pub fn rows_section(total: usize, bytes: &[u8], count: u8) -> Result<(Section<'_>, &[u8]), Fault>
    ensures value { TookItems row_bytes (rows total count bytes.now) result }
    ensures law { RowsLaw total count bytes.now }
{
    let mut reader = Reader { total, left: bytes };
    let rows = reader.rows(count)?;
    Ok((rows, reader.left))
}

// The rows that lie in the bytes, one by one, up to the first bytes that are no row.
#[derive(Drop)]
pub struct SectionRows<'a> {
    bytes: &'a [u8],
}

impl<'a> Section<'a> {
    // Its rows, where it is a section of rows.
    pub fn rows(self) -> SectionRows<'a>
        ensures { result.bytes.now ≡ self.entry.bytes.now }
    {
        SectionRows { bytes: self.bytes }
    }
}

impl<'a> Iterator for SectionRows<'a> {
    type Item = Row<'a>;

    ghost next_gives = { λ s row t. GivesRow s.bytes.now row t.bytes.now };

    ghost remaining = { λ s. at_most (length s.bytes.now) };

    fn next(&mut self) -> Option<Row<'a>> {
        let [symbol, length, rest @ ..] = self.bytes else {
            return None;
        };
        let (word, rest) = rest.split_at_checked(usize::from(*length))?;
        self.bytes = rest;
        Some(Row {
            symbol: *symbol,
            word,
        })
    }
}
