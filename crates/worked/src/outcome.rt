// What is said of a run.
use grammar::InputTooLong;

// The foot length in millimetres with which a word takes an input, if it does.
pub type Outcome = Result<Option<u32>, InputTooLong>;
