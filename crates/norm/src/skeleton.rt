ghost use Rattle.std.specs.Prelude.{◌≡◌, ℕ, suc, ◌<◌, ◌≤◌, true, length, is_some};
ghost use Rattle.norm.specs.Words.{body};
ghost use Rattle.norm.specs.Norms.{norms as norm_of};
ghost use Rattle.norm.specs.Measured.{norm_in, letter_in};
ghost use Rattle.norm.specs.Ruled.{rules_of};

use crate::best_rule::BestRule;
use crate::rule_words::{RuleWords, SYMBOLS};

// A grammar without its tallies: the words of its rules, and for each symbol the best rule, which has
// its norm and the first letter of its first input. No rule undercuts a norm; a symbol's first letter
// is the least at which a rule attains it; no norm passes 64.
#[derive(Drop)]
pub struct Skeleton {
    pub words: RuleWords,
    pub best_rules: [BestRule; SYMBOLS],
    ghost small: { (A : ℕ) → A < words.count → norm_in best_rules A ≤ 64 },
    ghost below: { (A a : ℕ) → is_some (rules_of words A a) ≡ true → norm_in best_rules A ≤ suc (norm_of (norm_in best_rules) (body (rules_of words A a))) },
    ghost there: { (A : ℕ) → A < words.count → is_some (rules_of words A (letter_in best_rules A)) ≡ true },
    ghost attained: { (A : ℕ) → A < words.count → norm_in best_rules A ≡ suc (norm_of (norm_in best_rules) (body (rules_of words A (letter_in best_rules A)))) },
    ghost earliest: { (A a : ℕ) → is_some (rules_of words A a) ≡ true → a < letter_in best_rules A → norm_in best_rules A < suc (norm_of (norm_in best_rules) (body (rules_of words A a))) },
}
