// What a comparison answers.
#[derive(Clone, Copy, Debug, PartialEq, Eq)]
pub enum Answer {
    // The words take the same inputs with the same tallies.
    Same,
    // They do not: an input of so many letters shows it.
    Different(usize),
}
