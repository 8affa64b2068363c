// Rows on trial: marks that go back to what they were, unless the rows are kept.
ghost use Rattle.std.specs.Prelude.{◌≡◌, ℕ, ◌<◌, ◌||◌, ◌&&◌, ◌==◌, nat_lt, true, false, cond, slice_set};
ghost use Rattle.norm.specs.Tabled.{held};
ghost use Rattle.sheet.specs.Marked.{has};
ghost use Rattle.sheet.specs.Rowed.{shown, shows, with_row};

use crate::marks::Marks;
use crate::row::Row;
use crate::sheet::Sheet;
use crate::view::SheetView;

// A sheet that is lent for a trial, and its marks as they were. At its end they are put back, unless the rows
// are kept; what lies in the rows stays either way.
pub struct MarkGuard<'a> {
    sheet: &'a mut Sheet,
    saved: Marks,
    kept: bool,
}

impl Drop for MarkGuard<'_> {
    fn drop(self)
        ensures rows { self.exit.0.now.rows ≡ self.entry.sheet.now.rows }
        ensures marks { self.exit.0.now.marks ≡ cond self.entry.kept self.entry.sheet.now.marks self.entry.saved }
    {
        if !self.kept {
            self.sheet.marks = self.saved;
        }
        let MarkGuard {
            sheet: _,
            saved: _,
            kept: _,
        } = self;
    }
}

impl<'a> MarkGuard<'a> {
    // Begins a trial with the sheet as it is.
    pub fn new(sheet: &'a mut Sheet) -> MarkGuard<'a>
        ensures same_sheet { result.sheet.ghost_name ≡ sheet.entry.ghost_name }
        ensures sheet { result.sheet.now ≡ sheet.old }
        ensures saved { result.saved ≡ sheet.old.marks }
        ensures kept { result.kept ≡ false }
    {
        let saved = sheet.marks;
        MarkGuard {
            sheet,
            saved,
            kept: false,
        }
    }
}

impl MarkGuard<'_> {
    // The rows now, lent.
    pub fn view(&self) -> SheetView<'_>
        ensures view { (A : ℕ) → shown result A ≡ shows self.now.sheet.now A }
        ensures rows { result.rows.now ≡ self.now.sheet.now.rows }
    {
        self.sheet.view()
    }

    // Writes a row and marks it, as the sheet does.
    pub fn write(&mut self, symbol: u8, row: Row)
        ensures same_sheet { self.new.sheet.ghost_name ≡ self.old.sheet.ghost_name }
        ensures saved { self.new.saved ≡ self.old.saved }
        ensures kept { self.new.kept ≡ self.old.kept }
        ensures rows { self.new.sheet.now.rows ≡ slice_set self.old.sheet.now.rows symbol row }
        ensures marks { (A : ℕ) → has self.new.sheet.now.marks.bits A ≡ (has self.old.sheet.now.marks.bits A || (nat_lt symbol 32 && A == symbol)) }
        ensures view { symbol < 32 → (A : ℕ) → shows self.new.sheet.now A ≡ with_row (shows self.old.sheet.now) symbol (held row) A }
    {
        self.sheet.write(symbol, row);
    }

    // Keeps the rows: the marks stay at the end.
    pub fn keep(&mut self)
        ensures same_sheet { self.new.sheet.ghost_name ≡ self.old.sheet.ghost_name }
        ensures saved { self.new.saved ≡ self.old.saved }
        ensures sheet { self.new.sheet.now ≡ self.old.sheet.now }
        ensures kept { self.new.kept ≡ true }
    {
        self.kept = true;
    }
}
