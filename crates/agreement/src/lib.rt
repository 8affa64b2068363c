// Agreement: normal forms of words over a sheet, and whether its rows prove themselves.
#![tactic(auto)]

mod agreeing;
mod candidate;
mod form;
mod forms;
mod offsets;
mod replacing;
mod taking;
#[cfg(test)]
mod tests;
mod workspace;

pub use agreeing::Disagreement;
pub use candidate::{may_stand, takes_first};
pub use form::Form;
pub use forms::Forms;
pub use offsets::{first_input, offset};
pub use workspace::Workspace;
