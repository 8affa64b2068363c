// The comparer and its calls.
#![tactic(auto)]

mod carrying;
mod clearing;
mod comparer;
mod comparing;
mod copies;
mod desk;
mod file;
mod making;
mod offers;
mod reading;
mod refused;
mod running;

pub use carrying::carry_over;
pub use comparer::Comparer;
