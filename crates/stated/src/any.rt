// The check of a file with whatever kinds it states.
ghost use Rattle.std.specs.Prelude.{◌≡◌, ℕ, List, Err, MatchOption};
ghost use Rattle.layout.specs.Laws.{AnyLaw};
ghost use Rattle.layout.specs.Reading.{checked, checked_any};
ghost use Rattle.layout.specs.declared.fault.Fault.TheVariants.{Kinds};
ghost use Rattle.format.specs.Views.{Answers};

use format::{Checked, FileTally, check_file};
use layout::Fault;
use tally::{FootMm, LastMm, OddOnes, Pair, Untallied};

// The check's answer, unless it is that the file has other kinds than the tally T.
fn check_as<T: FileTally>(bytes: &[u8]) -> Option<Result<Checked<'_>, Fault>>
    ensures own { MatchOption result (checked T.FileTally.kinds bytes.now ≡ Err Kinds) (λ a. Answers (checked T.FileTally.kinds bytes.now) a) }
    ensures any { MatchOption result (checked T.FileTally.kinds bytes.now ≡ Err Kinds) (λ a. Answers (checked_any bytes.now) a) }
{
    match check_file::<T>(bytes) {
        Ok(file) => Some(Ok(file)),
        Err(Fault::Kinds) => None,
        Err(fault) => Some(Err(fault)),
    }
}

// The answer for the tally whose kinds the file states: none, one, or two that rise.
fn answer_any(bytes: &[u8]) -> Result<Checked<'_>, Fault>
    ensures { Answers (checked_any bytes.now) result }
{
    check_as::<Untallied>(bytes)
        .or_else(|| check_as::<FootMm>(bytes))
        .or_else(|| check_as::<LastMm>(bytes))
        .or_else(|| check_as::<OddOnes>(bytes))
        .or_else(|| check_as::<Pair<FootMm, LastMm>>(bytes))
        .or_else(|| check_as::<Pair<FootMm, OddOnes>>(bytes))
        .unwrap_or_else(|| check_file::<Pair<LastMm, OddOnes>>(bytes))
}

// Checks a file for the kinds that it states itself. The bytes are accepted just if they encode legal
// contents; a fault says what is wrong with them, and where, and is never about the kinds.
pub fn check_any(bytes: &[u8]) -> Result<Checked<'_>, Fault>
    ensures some { (ks : List ℕ) × Answers (checked ks bytes.now) result }
    ensures value { Answers (checked_any bytes.now) result }
    ensures law { AnyLaw bytes.now }
{
    answer_any(bytes)
}
