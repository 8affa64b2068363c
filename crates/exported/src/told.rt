// What an export tells, as numbers.
ghost use Rattle.std.specs.Prelude.{◌≡◌};
ghost use Rattle.exported.specs.Exports.{told, refused_told, run_told, compare_told};

use calls::{Answer, CallFault};
use layout::FaultCode;
use tally::FootMm;

// The verdict, and three numbers that depend on it.
#[repr(C)]
#[derive(Clone, Copy, Debug, PartialEq, Eq)]
pub struct Told {
    // 0 accepted, same or taken; 1 different or not taken; 2 refused.
    pub verdict: u8,
    // The fault's number; 0 where nothing is refused.
    pub number: u8,
    // The fault's first number; or the length of the rows; or the tally.
    pub first: usize,
    // The fault's second number; or the length of the input that is shown.
    pub second: usize,
}

impl Told {
    // A verdict without a fault.
    pub(crate) fn answer(verdict: u8, first: usize, second: usize) -> Told
        ensures { result ≡ told verdict 0 first second }
    {
        Told {
            verdict,
            number: 0,
            first,
            second,
        }
    }

    // A refusal.
    pub(crate) fn refusal(code: FaultCode) -> Told
        ensures { result ≡ refused_told code }
    {
        Told {
            verdict: 2,
            number: code.number,
            first: code.first,
            second: code.second,
        }
    }

    // A run.
    pub(crate) fn of_run(answer: Result<Option<FootMm>, CallFault>) -> Told
        ensures { result ≡ run_told answer }
    {
        match answer {
            Ok(Some(tally)) => Told::answer(0, tally.mm as usize, 0),
            Ok(None) => Told::answer(1, 0, 0),
            Err(fault) => Told::refusal(FaultCode::from(fault)),
        }
    }

    // A comparison, with the length of its rows.
    pub(crate) fn of_compare(answer: Result<(Answer, usize), CallFault>) -> Told
        ensures { result ≡ compare_told answer }
    {
        match answer {
            Ok((Answer::Same, rows)) => Told::answer(0, rows, 0),
            Ok((Answer::Different(input), rows)) => Told::answer(1, rows, input),
            Err(fault) => Told::refusal(FaultCode::from(fault)),
        }
    }
}
