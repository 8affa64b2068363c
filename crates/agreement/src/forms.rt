ghost use Rattle.std.specs.Prelude.{◌≡◌, length};

use crate::form::Form;

// What is put for symbols: a form for each below 32. Others are left.
#[derive(Drop)]
pub struct Forms<T> {
    pub(crate) forms: [Form<T, 64>; 32],
    ghost room: { length forms ≡ 32 },
}
