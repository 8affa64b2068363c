use comparer::Comparer;

// How a question came out.
#[derive(Clone, Copy, Debug, PartialEq)]
pub enum Outcome<T> {
    // The words take the same inputs with the same tallies.
    Same,
    // They do not: an input of so many letters shows it, and this is what each word makes of it.
    Different {
        length: usize,
        one: Option<T>,
        two: Option<T>,
    },
}

// An answer, and the comparer that gave it: its rows prove that words are the same.
#[derive(Drop)]
pub struct Answered<T> {
    pub outcome: Outcome<T>,
    pub comparer: Comparer<T>,
}
