// Grammars as the lines of a script give them.
use crate::kinds::Kinds;
use crate::misread::Misread;
use crate::values::{bytes, word};
use comparer::Comparer;
use file_grammar::FileGrammar;
use format::FileTally;
use grammar::{Grammar, ListGrammar, RuleRecord, RuleWord, Twin};
use std::alloc::{AllocError, Global};
use std::marker::PhantomData;

// A list grammar: its records have the numbers of their tallies, one for each kind, and 0 for what is not there.
#[derive(Drop)]
pub struct Listing {
    count: u8,
    kinds: Kinds,
    records: Vec<RuleRecord<[u32; 2]>>,
}

// The grammar of one line: of the bytes of a file, or of a list.
#[derive(Drop)]
pub enum Source {
    File(Vec<u8>),
    List(Listing),
}

// What is compared over: a grammar, or the twin of two.
#[derive(Clone, Copy)]
pub enum Subject<'a> {
    One(&'a Source),
    Twin(&'a Source, &'a Source),
}

// The word of a record: at most five symbols in its room.
fn rule_word(heap: Global, length: &str, symbols: &str) -> Result<RuleWord, Misread> {
    let mut room = [0; 5];
    for (cell, symbol) in room.iter_mut().zip(word(heap, symbols)?) {
        *cell = symbol;
    }
    Ok(RuleWord {
        length: length.parse()?,
        symbols: room,
    })
}

// The numbers of a record, as many as there are kinds.
fn numbers(fields: &[&str], kinds: Kinds) -> Result<[u32; 2], Misread> {
    if fields.len() != kinds.count() {
        return Err(Misread::Malformed);
    }
    match fields {
        [] => Ok([0, 0]),
        [first] => Ok([first.parse()?, 0]),
        [first, second, ..] => Ok([first.parse()?, second.parse()?]),
    }
}

// A record `symbol,letter,length,s0.s1.s2.s3.s4,tally..`.
fn record(heap: Global, field: &str, kinds: Kinds) -> Result<RuleRecord<[u32; 2]>, Misread> {
    let fields: Vec<&str> = field.split(',').collect(heap)?;
    match fields.as_slice() {
        [symbol, letter, length, symbols, tally @ ..] => Ok(RuleRecord {
            symbol: symbol.parse()?,
            letter: letter.parse()?,
            word: rule_word(heap, length, symbols)?,
            tally: numbers(tally, kinds)?,
        }),
        _ => Err(Misread::Malformed),
    }
}

impl Listing {
    // The list of the fields COUNT KINDS RECORDS.
    fn read(heap: Global, count: &str, kinds: &str, records: &str) -> Result<Listing, Misread> {
        let mut listing = Listing {
            count: count.parse()?,
            kinds: kinds.parse()?,
            records: Vec::new(heap),
        };
        if records != "-" {
            for field in records.split(';') {
                listing.records.push(record(heap, field, listing.kinds)?)?;
            }
        }
        Ok(listing)
    }

    // Its grammar.
    fn grammar<T: FileTally>(&self, heap: Global) -> Result<ListGrammar<T>, AllocError> {
        let mut records = Vec::new(heap);
        for record in &self.records {
            let [first, second] = record.tally;
            records.push(RuleRecord {
                symbol: record.symbol,
                letter: record.letter,
                word: record.word,
                tally: T::of_numbers(first, second),
            })?;
        }
        Ok(ListGrammar::new(self.count, records))
    }
}

impl Source {
    // The grammar of the bytes in a field.
    pub fn read_file(heap: Global, field: &str) -> Result<Source, Misread> {
        Ok(Source::File(bytes(heap, field)?))
    }

    // The grammar of the fields COUNT KINDS RECORDS.
    pub fn read_list(
        heap: Global,
        count: &str,
        kinds: &str,
        records: &str,
    ) -> Result<Source, Misread> {
        Ok(Source::List(Listing::read(heap, count, kinds, records)?))
    }

    // The kinds of its tally; none of a file that is refused.
    fn kinds(&self) -> Option<Kinds> {
        match self {
            Source::File(bytes) => Kinds::of_file(bytes),
            Source::List(listing) => Some(listing.kinds),
        }
    }
}

impl Subject<'_> {
    // How many lines give it.
    pub fn lines(self) -> u8 {
        match self {
            Subject::One(_) => 1,
            Subject::Twin(_, _) => 3,
        }
    }

    // The kinds of its tally: those of the first grammar that has any, as a file that is refused has no symbols.
    pub fn kinds(self) -> Kinds {
        let known = match self {
            Subject::One(source) => source.kinds(),
            Subject::Twin(first, second) => first.kinds().or(second.kinds()),
        };
        known.unwrap_or(Kinds::Nothing)
    }

    // A comparer over it, for a tally.
    pub fn comparer<T: FileTally>(
        self,
        heap: Global,
        _tally: PhantomData<T>,
    ) -> Result<Comparer<T>, AllocError> {
        match self {
            Subject::One(Source::File(bytes)) => Ok(Comparer::new(&FileGrammar::<T>::new(bytes))),
            Subject::One(Source::List(listing)) => {
                Ok(Comparer::new(&listing.grammar::<T>(heap)?))
            }
            Subject::Twin(Source::File(bytes), second) => {
                twin_comparer(heap, FileGrammar::<T>::new(bytes), second)
            }
            Subject::Twin(Source::List(listing), second) => {
                twin_comparer(heap, listing.grammar::<T>(heap)?, second)
            }
        }
    }
}

// A comparer over the twin of two grammars.
fn twin_comparer<T: FileTally, G: Grammar<T = T> + Drop>(
    heap: Global,
    first: G,
    second: &Source,
) -> Result<Comparer<T>, AllocError> {
    match second {
        Source::File(bytes) => {
            let second = FileGrammar::<T>::new(bytes);
            Ok(Comparer::new(&Twin::new(first, second)))
        }
        Source::List(listing) => {
            let second = listing.grammar::<T>(heap)?;
            Ok(Comparer::new(&Twin::new(first, second)))
        }
    }
}
