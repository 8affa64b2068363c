// The listing of a file: a line for each symbol, with its norm and the smallest symbol that is the same; and what is
// proved of listings.
#![tactic(auto)]

mod front;
mod input;
mod laws;
mod lines;
mod listing;
mod opening;
mod smallest;
#[cfg(test)]
mod tests;

pub use input::list_input;
pub use laws::listings_stand;
pub use listing::{MAX_LISTING, list_file};
