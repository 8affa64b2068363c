// Witnesses: where a comparison ends with "different", an input on which the two words differ, and how long it is. Definitions and theorems; the code of comparisons is a crate above.
#![tactic(auto)]

ghost use Rattle.witness.specs.Example.{Examples};
ghost use Rattle.witness.specs.Laws.{Bounds, WitnessesLaw};

use tally::Tally;

// The laws of witnesses stand for every tally.
pub fn witness_stands<T: Tally>()
    ensures law { WitnessesLaw T.Tally.group }
    ensures bound { Bounds }
    ensures examples { (x y z : T) → Examples T.Tally.group x y z }
{}
