// Walks along inputs: buffers of letters, the front of an input that a word takes, and the row to blame where a
// word and its normal form differ.
#![tactic(auto)]

mod blame;
mod blaming;
mod front;
mod fronts;
mod letters;
#[cfg(test)]
mod tests;

pub use blame::Blame;
pub use blaming::blamed;
pub use front::Front;
pub use fronts::front_of;
pub use letters::Letters;
