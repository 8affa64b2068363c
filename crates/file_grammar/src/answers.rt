// The grammar that a file holds.
ghost use Rattle.std.specs.Prelude.{◌≡◌, Ok};
ghost use Rattle.layout.specs.Contents.{Contents, Legal};
ghost use Rattle.format.specs.Views.{Shows};
ghost use Rattle.file_grammar.specs.Filed.{held, file_meaning};
ghost use Rattle.file_grammar.specs.Tabled.{tabled};
ghost use Rattle.file_grammar.specs.WellTabled.{tabled_wellformed};

use crate::fill::{empty_table, table_of};
use crate::rule_table::RuleTable;
use format::{Checked, FileTally, check_file};
use grammar::Grammar;
use std::marker::PhantomData;

// A grammar over the bytes of a file: its rules lie in the bytes, and a table has their places.
#[derive(Drop)]
pub struct FileGrammar<'a, T> {
    table: RuleTable<'a>,
    tally: PhantomData<T>,
}

impl<'a, T: FileTally> FileGrammar<'a, T> {
    // The grammar of a checked file, whatever its kinds: tallies are made of the first two numbers of a
    // rule, and one that a rule lacks is 0.
    pub fn of_file(file: Checked<'a>) -> FileGrammar<'a, T>
        ensures { (c : Contents) → Legal c → Shows file.entry c → tabled T.FileTally.made result.table ≡ held T.FileTally.made (Ok c) }
    {
        FileGrammar {
            table: table_of(file),
            tally: PhantomData,
        }
    }

    // The grammar of a file's bytes; bytes that the check refuses are a grammar without symbols.
    pub fn new(bytes: &'a [u8]) -> FileGrammar<'a, T>
        ensures { tabled T.FileTally.made result.table ≡ file_meaning T.FileTally.kinds T.FileTally.made bytes.now }
    {
        match check_file::<T>(bytes) {
            Ok(file) => FileGrammar::of_file(file),
            Err(_) => FileGrammar {
                table: empty_table(),
                tally: PhantomData,
            },
        }
    }
}

impl<'a, T: FileTally> Grammar for FileGrammar<'a, T> {
    type T = T;

    ghost meaning = { λ g. tabled T.FileTally.made g.table };

    ghost wellformed = { λ g. tabled_wellformed T.FileTally.made g.table };

    fn count(&self) -> u8 {
        self.table.count
    }

    fn has_rule(&self, symbol: u8, letter: u8) -> bool {
        self.table.rule(symbol, letter).is_some()
    }

    // 0, and 255 below: a question's answer where there is no rule is fixed.
    fn rule_len(&self, symbol: u8, letter: u8) -> u8 {
        self.table.rule(symbol, letter).map_or(0, |rule| rule.len())
    }

    fn rule_symbol(&self, symbol: u8, letter: u8, at: u8) -> u8 {
        self.table
            .rule(symbol, letter)
            .map_or(255, |rule| rule.symbol(at))
    }

    // Tried: with `map_or_else` the closure, which asks the parameter's trait, gets no proof.
    fn rule_tally(&self, symbol: u8, letter: u8) -> T {
        match self.table.rule(symbol, letter) {
            Some(rule) => T::of_numbers(rule.number(0), rule.number(1)),
            None => T::zero(),
        }
    }
}
