// The check of a file for the kinds that it states itself.
#![tactic(auto)]

mod any;
#[cfg(test)]
mod tests;

pub use any::check_any;
