// What an input shows.
#[derive(Clone, Copy)]
pub(crate) enum Lead {
    // The given words differ on it.
    Words,
    // The symbol's row is not true on it.
    Row(u8),
}
