// The words that are compared.
#[derive(Clone, Copy)]
pub(crate) struct Words<'a> {
    pub(crate) one: &'a [u8],
    pub(crate) two: &'a [u8],
}
