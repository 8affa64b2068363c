// Comparison of two words, mend by mend.
#![tactic(auto)]

mod agreed;
mod bench;
mod comparison;
mod deciding;
mod failing;
mod fork;
mod lead;
mod look;
mod looking;
mod origin;
mod outcome;
mod pair;
mod parting;
mod source;
mod sources;
#[cfg(test)]
mod tests;
mod tracing;
mod treating;
mod treatment;
mod trying;
mod turning;
mod verdict;
mod words;

pub use deciding::decide;
pub use origin::Origin;
pub use treatment::Treatment;
pub use verdict::Verdict;
