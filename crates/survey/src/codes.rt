// How a fault of the grammar is told, and how faults of the norms become such.
ghost use Rattle.std.specs.Prelude.{◌≡◌};
ghost use Rattle.survey.specs.Faults.{code_of, from_norms};

use crate::fault::GrammarFault;
use layout::{FaultCode, Layer};
use norm::NormFault;

// The fault's number, its layer, and its two numbers.
impl From<GrammarFault> for FaultCode {
    ghost from_gives = { λ f r. r ≡ code_of f };

    fn from(fault: GrammarFault) -> FaultCode {
        // A fault is told with two numbers, always: 0 where it has no such number.
        let (number, first, second) = match fault {
            GrammarFault::Count(count) => (8, count, 0),
            GrammarFault::LongRule { symbol, letter } => (9, symbol, letter),
            GrammarFault::StraySymbol { symbol, letter } => (10, symbol, letter),
            GrammarFault::NoInput(symbol) => (11, symbol, 0),
            GrammarFault::TooLong(symbol) => (12, symbol, 0),
        };
        let layer = Layer::Grammar;
        FaultCode {
            number,
            layer,
            first: first as usize,
            second: second as usize,
        }
    }
}

// A fault of the norms is one of the grammar.
impl From<NormFault> for GrammarFault {
    ghost from_gives = { λ f r. r ≡ from_norms f };

    fn from(fault: NormFault) -> GrammarFault {
        match fault {
            NormFault::NoInput(symbol) => GrammarFault::NoInput(symbol),
            NormFault::TooLong(symbol) => GrammarFault::TooLong(symbol),
        }
    }
}
