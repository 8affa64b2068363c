// The grammar that a file holds: a table of the rules' places over the file's bytes.
#![tactic(auto)]

mod answers;
mod fill;
mod rule_bytes;
mod rule_table;
#[cfg(test)]
mod tests;

pub use answers::FileGrammar;
