// How a fault of a call is told, and how the faults of the layers below become such.
ghost use Rattle.std.specs.Prelude.{◌≡◌};
ghost use Rattle.calls.specs.Faults.{code_of, from_file, from_grammar};

use crate::fault::CallFault;
use layout::{Fault, FaultCode, Layer};
use survey::GrammarFault;

// The fault's number, its layer, and its two numbers.
impl From<CallFault> for FaultCode {
    ghost from_gives = { λ f r. r ≡ code_of f };

    fn from(fault: CallFault) -> FaultCode {
        // A fault is told with two numbers, always: 0 where it has no such number.
        let (number, first, second) = match fault {
            CallFault::File(fault) => return FaultCode::from(fault),
            CallFault::Grammar(fault) => return FaultCode::from(fault),
            CallFault::LongWord { word, length } => (13, word as usize, length),
            CallFault::StraySymbol { word, place } => (14, word as usize, place),
            CallFault::ShortBuffer(length) => (15, length, 0),
            CallFault::LongInput(length) => (16, length, 0),
            CallFault::Marked(symbol) => (17, symbol as usize, 0),
            CallFault::Unlike(symbol) => (18, symbol as usize, 0),
            CallFault::Misses(symbol) => (19, symbol as usize, 0),
            CallFault::Disagrees(at) => (20, at.symbol as usize, at.letter as usize),
            CallFault::ShortCopy(length) => (21, length, 0),
        };
        let layer = Layer::Comparer;
        FaultCode {
            number,
            layer,
            first,
            second,
        }
    }
}

// A fault of offered bytes is one of the call.
impl From<Fault> for CallFault {
    ghost from_gives = { λ f r. r ≡ from_file f };

    fn from(fault: Fault) -> CallFault {
        CallFault::File(fault)
    }
}

// A fault of the grammar is one of every call but clear.
impl From<GrammarFault> for CallFault {
    ghost from_gives = { λ f r. r ≡ from_grammar f };

    fn from(fault: GrammarFault) -> CallFault {
        CallFault::Grammar(fault)
    }
}
