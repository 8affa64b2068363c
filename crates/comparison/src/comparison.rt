use crate::agreed::Agreed;
use crate::sources::Sources;
use crate::words::Words;

// A comparison: its words, how far rows agree, and how each row that it wrote came about. The guard of the sheet
// has the marks at its start.
#[derive(Drop)]
pub(crate) struct Comparison<'a> {
    pub(crate) words: Words<'a>,
    pub(crate) agreed: Agreed,
    pub(crate) sources: Sources,
}
