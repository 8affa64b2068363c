// Bytes that are written, and the rows of a sheet as a section.
ghost use Rattle.std.specs.Prelude.{◌≡◌, ◌≤◌, ◌++◌, length, drop};
ghost use Rattle.format.specs.Lent.{Wrote};
ghost use Rattle.sheet.specs.Rowed.{shown};
ghost use Rattle.calls.specs.Offers.{copied};

use sheet::SheetView;

// Writes the bytes at a place, where the buffer has room for them, and answers the place behind them.
pub fn put(out: &mut [u8], at: usize, bytes: &[u8]) -> usize
    ensures { Wrote out.old at bytes.now result out.new }
{
    let end = at.saturating_add(bytes.len());
    if end <= out.len() {
        out[at..end].copy_from_slice(bytes);
    }
    end
}

// Writes the rows as a section at a place, where the buffer has room for them, and answers the place behind them.
pub fn rows_into(rows: SheetView<'_>, out: &mut [u8], start: usize) -> usize
    ensures { Wrote out.old start (copied (shown rows.entry)) result out.new }
{
    let mut at = put(out, start, &[rows.marks.count() as u8]);
    let mut from = 0;
    while let Some((symbol, row)) = rows.next(from) {
        at = put(out, at, &[symbol, row.len]);
        at = put(out, at, row.as_slice());
        from = symbol + 1;
    }
    at
}

// Writes the rows as a section at the start of the buffer, where it has room, and answers how many bytes they are.
pub fn copy_into(rows: SheetView<'_>, out: &mut [u8]) -> usize
    ensures value { length (copied (shown rows.entry)) ≤ length out.old → result ≡ length (copied (shown rows.entry)) }
    ensures out { length (copied (shown rows.entry)) ≤ length out.old → out.new ≡ copied (shown rows.entry) ++ drop (length (copied (shown rows.entry))) out.old }
{
    rows_into(rows, out, 0)
}
