// Two words that part behind a common front: at the later symbol in one of them, with the later end behind it, and
// at the earlier symbol in the other.
#[derive(Clone, Copy)]
pub(crate) struct Parting<'a> {
    pub(crate) common: &'a [u8],
    pub(crate) later: u8,
    pub(crate) earlier: u8,
    pub(crate) later_end: &'a [u8],
}
