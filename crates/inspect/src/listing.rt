// A file in words: each part on a line with its place in the bytes, then norms and first inputs.
use crate::inspected::Inspected;
use crate::parts::{Numbers, Rules, Spelled};
use format::Checked;
use layout::Kind;
use norm::{MAX_NORM, Skeleton};
use std::fmt::Display;
use std::io;

// What is printed, and the place of the next part.
#[derive(Drop)]
struct Listing<'a, R> {
    rt: &'a R,
    place: usize,
}

impl<'a, R: Print> Listing<'a, R> {
    // Prints a part of so many bytes.
    fn part(&mut self, bytes: usize, text: impl Display + Drop) -> io::Result<()> {
        let place = self.place;
        println!(self.rt; "{place}: {text}")?;
        self.place = place.saturating_add(bytes);
        Ok(())
    }

    // The names and the kinds.
    fn head(&mut self, file: &Checked) -> anyhow::Result<()> {
        let count = file.names.len();
        self.part(1, format_args!("{count} names"))?;
        for name in file.names {
            self.part(1, char::from(*name))?;
        }
        let count = file.kinds.len();
        self.part(1, format_args!("{count} kinds"))?;
        // A checked file has no other kinds than the three.
        for kind in file.kinds {
            self.part(1, Kind::try_from(*kind).unwrap_or(Kind::OddOnes))?;
        }
        Ok(())
    }

    // The rules.
    fn rules(&mut self, file: &Checked) -> io::Result<()> {
        let names = file.names;
        let count = file.rules.count;
        self.part(2, format_args!("{count} rules"))?;
        let rules = Rules {
            bytes: file.rules.bytes,
            kinds: file.kinds.len(),
        };
        for rule in rules {
            let name = Spelled {
                names,
                word: &[rule.symbol],
            };
            let letter = char::from(rule.letter);
            let numbers = Numbers(rule.numbers);
            let word = Spelled {
                names,
                word: rule.word,
            };
            self.part(rule.size(), format_args!("{name} {letter}{numbers} {word}"))?;
        }
        Ok(())
    }

    // The rows.
    fn rows(&mut self, file: &Checked) -> io::Result<()> {
        let names = file.names;
        let count = file.rows.count;
        self.part(1, format_args!("{count} rows"))?;
        for row in file.rows.rows() {
            let name = Spelled {
                names,
                word: &[row.symbol],
            };
            let size = row.word.len().saturating_add(2);
            let word = Spelled {
                names,
                word: row.word,
            };
            self.part(size, format_args!("{name} {word}"))?;
        }
        Ok(())
    }

    // The norm and the first input of each symbol.
    fn norms(&self, names: &[u8], skeleton: &Skeleton) -> io::Result<()> {
        for symbol in 0..skeleton.words.count {
            let name = Spelled {
                names,
                word: &[symbol],
            };
            let norm = skeleton.norm(symbol);
            let mut room = [0; MAX_NORM as usize];
            // A first input has as many letters as the norm.
            let len = skeleton.first_input(&[symbol], &mut room).unwrap_or(0);
            let letters = std::str::from_utf8(&room[..len]).unwrap_or("?");
            println!(self.rt; "{name}: norm {norm}, first input {letters}")?;
        }
        Ok(())
    }
}

// Prints the whole file.
pub fn show(rt: &impl Print, inspected: &Inspected) -> anyhow::Result<()> {
    let file = inspected.file;
    let mut listing = Listing { rt, place: 0 };
    listing.head(&file)?;
    listing.rules(&file)?;
    listing.rows(&file)?;
    listing.norms(file.names, inspected.survey.skeleton())?;
    Ok(())
}
