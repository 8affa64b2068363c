ghost use Rattle.std.specs.Prelude.{◌≡◌, length};

use crate::marks::Marks;
use crate::row::Row;

// A sheet: a table with a row for each symbol, of which the marked ones count. What lies in the others is
// free and changes no answer.
#[derive(Drop)]
pub struct Sheet {
    pub rows: [Row; 32],
    pub marks: Marks,
    ghost room: { length rows ≡ 32 },
}
