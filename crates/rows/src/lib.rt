// Sheets of rows: normal forms, agreement, and why rows that agree are true. Definitions and theorems; the code of sheets is the crate above.
#![tactic(auto)]

ghost use Rattle.rows.specs.Laws.{RowsLaw};
ghost use Rattle.rows.specs.Example.{Examples};

use tally::Tally;

// The laws of rows stand for every tally; a sheet carries them for its grammar.
pub fn rows_stand<T: Tally>()
    ensures law { RowsLaw T.Tally.group }
    ensures examples { (x y z : T) → Examples T.Tally.group x y z }
{}
