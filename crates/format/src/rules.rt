// The section of rules.
ghost use Rattle.std.specs.Prelude.{◌≡◌, []};
ghost use Rattle.layout.specs.Contents.{rule_bytes};
ghost use Rattle.layout.specs.Reading.{rule, a_letter, rule_count, number, many, rules};
ghost use Rattle.format.specs.Views.{Reads, Behind, seen, rule_head, ReadsItems};

use crate::reader::Reader;
use crate::row::Section;
use layout::Fault;

impl<'a> Reader<'a> {
    // The count of rules, two bytes, high first.
    fn rule_count(&mut self) -> Result<u16, Fault>
        ensures { Reads rule_count self.old result self.new }
    {
        let place = self.place();
        let high = self.byte()?;
        let low = self.byte()?;
        let count = u16::from_be_bytes([high, low]);
        if count <= 832 {
            Ok(count)
        } else {
            Err(Fault::Limit(place))
        }
    }

    // The letter of a rule.
    fn letter(&mut self) -> Result<u8, Fault>
        ensures { Reads a_letter self.old result self.new }
    {
        let place = self.place();
        let letter = self.byte()?;
        if letter.is_ascii_uppercase() {
            Ok(letter)
        } else {
            Err(Fault::Unallowed(place))
        }
    }

    // Passes over the numbers of a tally with `kinds` kinds, four bytes each.
    #[tactic(auto, using(crate::proofs::Skips::skips_short, crate::proofs::Skips::skips_all))]
    fn skip_numbers(&mut self, kinds: u8) -> Result<(), Fault>
        ensures { Reads (λ t bs. seen (λ _. tt) (many t (number t) kinds [] bs)) self.old result self.new }
    {
        match self.left.split_at_checked(kinds as usize * 4) {
            Some((_, rest)) => {
                self.left = rest;
                Ok(())
            }
            None => Err(Fault::Short(self.total)),
        }
    }

    // A rule: a symbol, a letter, after the rule before it, the tally's numbers, a length up to 4 and a word.
    fn rule(&mut self, count: u8, kinds: u8, before: Option<(u8, u8)>) -> Result<(u8, u8), Fault>
        ensures { Behind rule_head before (λ xs. Reads (λ t bs. seen rule_head (rule t count kinds xs bs)) self.old result self.new) }
    {
        let place = self.place();
        let symbol = self.symbol_below(count)?;
        let letter = self.letter()?;
        // None comes before every Some.
        if before >= Some((symbol, letter)) {
            return Err(Fault::Order(place));
        }
        self.skip_numbers(kinds)?;
        let len = self.count_within(0, 4)?;
        self.word(count, len)?;
        Ok((symbol, letter))
    }

    // The section of rules over `count` symbols and `kinds` kinds.
    pub(crate) fn rules(&mut self, count: u8, kinds: u8) -> Result<Section<'a>, Fault>
        ensures { ReadsItems rule_bytes (λ t. rules t count kinds) self.old result self.new }
    {
        let size = self.rule_count()?;
        let body = self.left;
        let mut before = None;
        // One behind the other: nothing is indexed.
        for _ in 0..size {
            before = Some(self.rule(count, kinds, before)?);
        }
        Ok(Section {
            count: size as usize,
            bytes: self.read_of(body),
        })
    }
}
