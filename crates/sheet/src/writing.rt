// Making and changing a sheet.
ghost use Rattle.std.specs.Prelude.{◌≡◌, ℕ, ◌<◌, ◌||◌, ◌&&◌, ◌==◌, nat_lt, cond, None, List, slice_set};
ghost use Rattle.std.specs.List.{slice_get};
ghost use Rattle.layout.specs.Contents.{FileRow, All, joined, row_bytes};
ghost use Rattle.norm.specs.Tabled.{held};
ghost use Rattle.sheet.specs.Marked.{has};
ghost use Rattle.sheet.specs.Rowed.{shown, shows, with_row, Fits, row_at, over};

use crate::marks::{Marks, ROWS};
use crate::row::{MAX_ROW, Row, row_of};
use crate::sheet::Sheet;
use crate::view::SheetView;
use format::Section;
use norm::ShortWord;

impl Sheet {
    // No symbol has a row.
    pub fn empty() -> Sheet
        ensures { (A : ℕ) → shows result A ≡ None }
    {
        let row = ShortWord {
            symbols: [0; MAX_ROW],
            len: 0,
        };
        Sheet {
            rows: [row; 32],
            marks: Marks::none(),
        }
    }

    // Writes the row of the symbol and marks it; no other row and no other mark changes. A symbol that can
    // have no row changes nothing.
    pub fn write(&mut self, symbol: u8, row: Row)
        ensures rows { self.new.rows ≡ slice_set self.old.rows symbol row }
        ensures marks { (A : ℕ) → has self.new.marks.bits A ≡ (has self.old.marks.bits A || (nat_lt symbol 32 && A == symbol)) }
        ensures view { symbol < 32 → (A : ℕ) → shows self.new A ≡ with_row (shows self.old) symbol (held row) A }
    {
        if symbol < ROWS {
            self.rows[symbol as usize] = row;
            self.marks.mark(symbol);
        }
    }

    // Takes every mark away; what lies in the rows stays.
    pub fn clear(&mut self)
        ensures rows { self.new.rows ≡ self.old.rows }
        ensures view { (A : ℕ) → shows self.new A ≡ None }
    {
        self.marks = Marks::none();
    }

    // The rows of a section as a sheet of their own. Of bytes that are no rows for a sheet nothing is said.
    pub fn of_rows(section: Section<'_>) -> Sheet
        ensures { (rs : List FileRow) → All Fits rs → section.entry.bytes.now ≡ joined row_bytes rs → (A : ℕ) → shows result A ≡ row_at A rs }
    {
        let mut sheet = Sheet::empty();
        for row in section.rows() {
            sheet.write(row.symbol, row_of(row.word));
        }
        sheet
    }

    // Takes over the marked rows of the other sheet, each in place of the symbol's own.
    pub fn adopt(&mut self, other: SheetView<'_>)
        ensures rows { (A : ℕ) → slice_get self.new.rows A ≡ cond (has other.entry.marks.bits A) (slice_get other.entry.rows.now A) (slice_get self.old.rows A) }
        ensures marks { (A : ℕ) → has self.new.marks.bits A ≡ (has self.old.marks.bits A || has other.entry.marks.bits A) }
        ensures view { (A : ℕ) → shows self.new A ≡ over (shown other.entry A) (shows self.old A) }
    {
        for symbol in 0..ROWS {
            if !other.marks.has(symbol) {
                continue;
            }
            self.write(symbol, other.rows[symbol as usize]);
        }
    }
}
