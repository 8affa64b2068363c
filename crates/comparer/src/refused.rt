use survey::GrammarFault;

// A grammar that is refused: the fault, and how many symbols it has.
#[derive(Clone, Copy)]
pub struct Refused {
    pub(crate) fault: GrammarFault,
    pub(crate) count: u8,
}
