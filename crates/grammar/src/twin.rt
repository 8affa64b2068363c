// Twins.
ghost use Rattle.std.specs.Prelude.{◌≡◌, ◌+◌, min, if◌then◌else◌, nat_lt};
ghost use Rattle.grammar.specs.Twinned.{twinned, TwinLaw};
ghost use Rattle.grammar.specs.WellTwinned.{twinned_wellformed};

use crate::Grammar;
use tally::Tally;

// Two grammars of any makes over one tally, side by side. The second's symbols come after the
// first's; a count or a symbol that would pass 255 is 255.
#[derive(Drop)]
pub struct Twin<G, H> {
    pub first: G,
    pub second: H,
}

// A symbol of the second grammar behind the first's `by` symbols; what would pass 255 is 255.
pub fn raise(symbol: u8, by: u8) -> u8
    ensures { result ≡ min 255 (symbol + by) }
{
    symbol.saturating_add(by)
}

// A symbol in the first grammar's words; 255, as is fixed for twins, if it is not below the first's count.
fn keep(symbol: u8, count: u8) -> u8
    ensures { result ≡ (if nat_lt symbol count then symbol else 255) }
{
    if symbol < count { symbol } else { 255 }
}

// The part of a twin that has a symbol, and the symbol's number there.
#[derive(Clone, Copy)]
pub(crate) enum Part {
    First(u8),
    Second(u8),
}

impl<G: Grammar, H: Grammar<T = G::T>> Twin<G, H> {
    ghost use Rattle.grammar.specs.Parts.{IsPart};

    // The twin of two grammars.
    pub fn new(first: G, second: H) -> Twin<G, H>
        ensures first { result.first ≡ first }
        ensures second { result.second ≡ second }
        ensures law { TwinLaw G.T.Tally.group (G.Grammar.meaning first) (H.Grammar.meaning second) }
    {
        Twin { first, second }
    }

    // The part that has the symbol; none where the symbol is not below the twin's count.
    fn part(&self, symbol: u8) -> Option<Part>
        ensures { IsPart (G.Grammar.meaning self.now.first).count (H.Grammar.meaning self.now.second).count symbol result }
    {
        self.part_at(symbol, self.first.count())
    }

    // The same, handed the first's count, so that it is not asked for twice.
    fn part_at(&self, symbol: u8, mid: u8) -> Option<Part>
        ensures { IsPart mid (H.Grammar.meaning self.now.second).count symbol result }
    {
        if symbol < mid {
            Some(Part::First(symbol))
        } else if symbol < raise(self.second.count(), mid) {
            Some(Part::Second(symbol - mid))
        } else {
            None
        }
    }
}

impl<G: Grammar, H: Grammar<T = G::T>> Grammar for Twin<G, H> {
    type T = G::T;

    ghost meaning = { λ t. twinned (G.Grammar.meaning t.first) (H.Grammar.meaning t.second) };

    ghost wellformed = { λ t. twinned_wellformed (G.Grammar.meaning t.first) (H.Grammar.meaning t.second) (G.Grammar.wellformed t.first) (H.Grammar.wellformed t.second) };

    fn count(&self) -> u8 {
        raise(self.first.count(), self.second.count())
    }

    fn has_rule(&self, symbol: u8, letter: u8) -> bool {
        match self.part(symbol) {
            Some(Part::First(own)) => self.first.has_rule(own, letter),
            Some(Part::Second(own)) => self.second.has_rule(own, letter),
            None => false,
        }
    }

    // 0, and 255 below: a question's answer where there is no rule is fixed.
    fn rule_len(&self, symbol: u8, letter: u8) -> u8 {
        match self.part(symbol) {
            Some(Part::First(own)) => self.first.rule_len(own, letter),
            Some(Part::Second(own)) => self.second.rule_len(own, letter),
            None => 0,
        }
    }

    fn rule_symbol(&self, symbol: u8, letter: u8, at: u8) -> u8 {
        let mid = self.first.count();
        match self.part_at(symbol, mid) {
            Some(Part::First(own)) => keep(self.first.rule_symbol(own, letter, at), mid),
            Some(Part::Second(own)) => raise(self.second.rule_symbol(own, letter, at), mid),
            None => 255,
        }
    }

    fn rule_tally(&self, symbol: u8, letter: u8) -> G::T {
        match self.part(symbol) {
            Some(Part::First(own)) => self.first.rule_tally(own, letter),
            Some(Part::Second(own)) => self.second.rule_tally(own, letter),
            None => <G::T as Tally>::zero(),
        }
    }
}
