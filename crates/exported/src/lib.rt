// What is exported to programs that are not proved, to compare answers and speed with: thin functions over the library,
// on numbers and bytes. What they are given is lent for the call, and nothing is kept.
#![tactic(auto)]

mod calls_of;
mod exports;
mod told;

pub use exports::{exported_check, exported_compare, exported_list, exported_run};
pub use told::Told;
