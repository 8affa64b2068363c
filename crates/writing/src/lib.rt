// Writing a comparer's grammar and rows to a buffer, as a file: what a write is refused for before the grammar's own
// fault, the bytes, and the law of them. The call itself is a crate above.
#![tactic(auto)]

mod checks;
mod laws;
mod rules;
#[cfg(test)]
mod tests;
mod writing;

pub use checks::{MIN_FILE, check_names, check_room};
pub use laws::files_stand;
pub use writing::write_into;
