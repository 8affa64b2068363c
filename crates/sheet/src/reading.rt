// What a sheet has.
ghost use Rattle.std.specs.Prelude.{◌≡◌, ℕ, ◌<◌, ◌≤◌, Some, None, MatchOption};
ghost use Rattle.std.specs.Option.{option_map};
ghost use Rattle.norm.specs.Tabled.{held};
ghost use Rattle.rows.specs.Sheets.{marked};
ghost use Rattle.sheet.specs.Rowed.{shown, shows, NextRow};

use crate::row::Row;
use crate::sheet::Sheet;
use crate::view::SheetView;

impl<'a> SheetView<'a> {
    // The row of a symbol, if it is marked.
    pub fn row(&self, symbol: u8) -> Option<&'a Row>
        ensures { option_map (λ r. held r.now) result ≡ shown self.now symbol }
    {
        if !self.marks.has(symbol) {
            return None;
        }
        let rows = self.rows;
        rows.get(symbol as usize)
    }

    // The next row: the smallest symbol from `from` on that has one, and its word.
    pub fn next(&self, from: u8) -> Option<(u8, &'a Row)>
        ensures { MatchOption result ((A : ℕ) → from ≤ A → shown self.now A ≡ None) (λ p. (p.0 < 32) × NextRow (shown self.now) from p.0 × (shown self.now p.0 ≡ Some (held p.1.now))) }
    {
        let symbol = self.marks.next(from)?;
        Some((symbol, self.row(symbol)?))
    }
}

impl Sheet {
    // The marked rows, lent.
    pub fn view(&self) -> SheetView<'_>
        ensures view { (A : ℕ) → shown result A ≡ shows self.now A }
        ensures rows { result.rows.now ≡ self.now.rows }
    {
        SheetView {
            rows: &self.rows,
            marks: self.marks,
        }
    }

    // The row of a symbol, if it is marked.
    pub fn row(&self, symbol: u8) -> Option<&Row>
        ensures { option_map (λ r. held r.now) result ≡ shows self.now symbol }
    {
        self.view().row(symbol)
    }

    // How many rows there are.
    pub fn count(&self) -> u32
        ensures { result ≡ marked (shows self.now) 32 }
    {
        self.marks.count()
    }

    // The next row: the smallest symbol from `from` on that has one, and its word.
    pub fn next(&self, from: u8) -> Option<(u8, &Row)>
        ensures { MatchOption result ((A : ℕ) → from ≤ A → shows self.now A ≡ None) (λ p. (p.0 < 32) × NextRow (shows self.now) from p.0 × (shows self.now p.0 ≡ Some (held p.1.now))) }
    {
        self.view().next(from)
    }
}
