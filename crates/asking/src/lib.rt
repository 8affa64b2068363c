// The question whether two words of two files are the same: the arguments that ask it, words as they are written, the
// question with its answer, and the text of the answer.
#![tactic(auto)]

ghost use Rattle.asking.specs.Examples.{Examples};

mod answers;
mod arguments;
mod both;
mod labels;
mod misspelled;
mod names;
mod numbers;
mod offsets;
mod outcome;
mod question;
mod spelling;
#[cfg(test)]
mod tests;

pub use answers::answer_text;
pub use arguments::{Arguments, WrittenWord};
pub use both::ask_files;
pub use labels::Labels;
pub use misspelled::Misspelled;
pub use numbers::numbers_of;
pub use outcome::{Answered, Outcome};
pub use question::ask;
pub use spelling::{raise_word, spell};

// What is written of words and of answers, on small cases.
#[tactic(auto, using(crate::proofs::OnExamples::examples))]
pub fn texts_stand()
    ensures { Examples }
{}
