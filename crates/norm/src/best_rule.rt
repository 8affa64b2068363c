use crate::measure::NO_INPUT;

// The best rule of a symbol: the least that a rule makes of the symbol's measure, and the least letter
// of such a rule.
#[derive(Clone, Copy)]
pub struct BestRule {
    pub measure: u8,
    pub letter: u8,
}

// Where there is no rule: the measure says so, and the letter is no letter. No Option, as measures are
// compared with this one.
pub(crate) const NO_RULE: BestRule = BestRule {
    measure: NO_INPUT,
    letter: 0,
};
