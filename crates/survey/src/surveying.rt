// The survey of a grammar of any make.
ghost use Rattle.std.specs.Prelude.{Ok, Err};
ghost use Rattle.survey.specs.Refusals.{Refused};
ghost use Rattle.survey.specs.Laws.{Exact, OneVerdict, Surveys};

use crate::fault::GrammarFault;
use crate::table::Survey;
use crate::take::{rule_tallies, rule_words};
use grammar::Grammar;
use norm::Skeleton;

// Surveys a grammar: an accepted one as a table with norms and first inputs, which means the same
// and is not asked again; or the first fault. With n symbols it asks for each rule once, and looks
// at each rule at most about n times more, until no norm falls.
#[tactic(auto, using(crate::proofs::Verdicts::one_verdict))]
pub fn survey<G: Grammar>(g: &G) -> Result<Survey<G::T>, GrammarFault>
    ensures value { elim result [ Ok s ↦ Surveys 32 64 G.T.Tally.group (G.Grammar.meaning g.now) s | Err f ↦ Refused 32 64 G.T.Tally.group (G.Grammar.meaning g.now) f ] }
    ensures exact { Exact 32 64 G.T.Tally.group (G.Grammar.meaning g.now) result }
    ensures law { OneVerdict 32 64 G.T.Tally.group (G.Grammar.meaning g.now) }
{
    let words = rule_words(g)?;
    let skeleton = Skeleton::new(words)?;
    let tallies = rule_tallies(g, &skeleton.words);
    Ok(Survey { skeleton, tallies })
}
