ghost use Rattle.std.specs.Prelude.{◌≡◌, length};

use crate::marks::Marks;
use crate::row::Row;

// The marked rows of a sheet, lent: the table, and which of its rows count.
#[derive(Clone, Copy)]
pub struct SheetView<'a> {
    pub rows: &'a [Row; 32],
    pub marks: Marks,
    ghost room: { length rows.now ≡ 32 },
}
