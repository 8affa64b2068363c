// What a comparison comes to.
#[derive(Clone, Copy, Debug, PartialEq, Eq)]
pub enum Verdict {
    // The words take the same inputs with the same tallies.
    Same,
    // They do not.
    Different,
}
