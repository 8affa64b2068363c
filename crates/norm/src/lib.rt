// Norms and first inputs of symbols: their laws, and how they are measured over the words of rules.
#![tactic(auto)]

ghost use Rattle.norm.specs.Laws.{NormsLaw, OneNormed, CertificateLaw};

use tally::Tally;

mod best_rule;
mod fault;
mod first_inputs;
mod lookup;
mod making;
mod measure;
mod queries;
mod rule_words;
mod short_word;
mod skeleton;

pub use best_rule::BestRule;
pub use fault::NormFault;
pub use first_inputs::WORD_CAPACITY;
pub use measure::MAX_NORM;
pub use rule_words::{MAX_SYMBOLS, RuleWords};
pub use short_word::{MAX_RULE, ShortWord};
pub use skeleton::Skeleton;

// The laws of norms and first inputs stand for every tally; a survey carries them for its grammar.
pub fn norms_stand<T: Tally>()
    ensures law { NormsLaw T.Tally.group }
    ensures one { OneNormed T.Tally.group }
    ensures certificate { CertificateLaw T.Tally.group }
{}
