// Two words that are looked at, each with a sum that comes before it.
#[derive(Drop)]
pub(crate) struct Pair<'a, T> {
    pub(crate) one: &'a [u8],
    pub(crate) two: &'a [u8],
    pub(crate) before_one: T,
    pub(crate) before_two: T,
}
