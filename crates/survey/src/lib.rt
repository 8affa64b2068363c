// Surveys: which grammars are accepted, and an accepted grammar as a table with norms and first inputs.
#![tactic(auto)]

ghost use Rattle.std.specs.Prelude.{ℕ};
ghost use Rattle.grammar.specs.Meaning.{Meaning};
ghost use Rattle.survey.specs.Laws.{BareLaw};

use tally::Tally;

mod answers;
mod codes;
mod fault;
mod run;
mod running;
mod surveying;
mod table;
mod take;
#[cfg(test)]
mod tests;

pub use fault::GrammarFault;
pub use run::Run;
pub use surveying::survey;
pub use table::Survey;

// What a grammar is refused for, its norms and its first inputs do not depend on its tallies.
pub fn tallies_aside<T: Tally>()
    ensures { (n v : ℕ) (M : Meaning T) → BareLaw n v T.Tally.group M }
{}
