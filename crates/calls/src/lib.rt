// The calls of a comparer: their answers and refusals, histories of calls, and the law over them. Definitions and
// theorems, and what the calls check; the calls themselves are a crate above.
#![tactic(auto)]

ghost use Rattle.calls.specs.Laws.{HistoriesLaw, OneOffer};
ghost use Rattle.calls.specs.Example.{Examples};

use tally::Tally;

mod answer;
mod checks;
mod codes;
mod copying;
mod fault;
mod offering;
mod test;

pub use answer::Answer;
pub use checks::{MAX_GIVEN, MIN_COPY, check_compare, check_copy, check_run};
pub use copying::{copy_into, put, rows_into};
pub use fault::CallFault;
pub use offering::check_rows;
pub use test::Test;

// The law over histories stands for every tally, and an offer comes to one thing.
pub fn histories_stand<T: Tally>()
    ensures law { HistoriesLaw T.Tally.group }
    ensures one { OneOffer T.Tally.group }
    ensures examples { (x y z : T) → Examples T.Tally.group x y z }
{}
