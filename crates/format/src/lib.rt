// The file: its check, its canonical bytes, and tallies in files.
#![tactic(auto)]

mod check;
mod contents;
mod encode;
mod file_tally;
mod lists;
mod reader;
mod row;
mod rows;
mod rules;
#[cfg(test)]
mod tests;

pub use check::check_file;
pub use contents::{
    Entry, EntryContents, FileContents, LentContents, OwnedContents, OwnedEntry, RuleEntry,
};
pub use encode::{encode_entries_into, encode_into};
pub use file_tally::{FileTally, OneNumber};
pub use row::{Checked, Row, Section};
pub use rows::{SectionRows, rows_section};
