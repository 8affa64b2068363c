// Sheets: a table of rows with marks.
#![tactic(auto)]

mod candidates;
mod guard;
mod marks;
mod reading;
mod row;
mod sheet;
#[cfg(test)]
mod tests;
mod view;
mod writing;

pub use candidates::candidate_rows;
pub use guard::MarkGuard;
pub use marks::{Marks, ROWS};
pub use row::{MAX_ROW, Row, row_of};
pub use sheet::Sheet;
pub use view::SheetView;
