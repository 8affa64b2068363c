ghost use Rattle.std.specs.Prelude.{◌≡◌, length};

use crate::forms::Forms;

// What a call works out from a sheet: the normal form of each symbol, and the offset of each row. A
// symbol without a row is its own normal form.
#[derive(Drop)]
pub struct Workspace<T> {
    pub(crate) forms: Forms<T>,
    pub(crate) offsets: [T; 32],
    ghost offset_room: { length offsets ≡ 32 },
}
