use crate::origin::Origin;
use sheet::Marks;

// How a row came about: the pair that it was made from, and the marks at that time.
#[derive(Clone, Copy)]
pub(crate) struct Source {
    pub(crate) origin: Origin,
    pub(crate) marks: Marks,
}
