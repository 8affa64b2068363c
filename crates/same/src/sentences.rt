// What is said of a refusal, in words.
ghost use Rattle.std.specs.Prelude.{Some};
ghost use Rattle.same.specs.Sentences.{fault_words, file_sentence};

use crate::given::Given;
use calls::CallFault;
use format::Checked;
use layout::{Fault, Kind};
use std::fmt;
use survey::GrammarFault;

// What is wrong with a file.
#[derive(Clone, Copy)]
struct FaultWords(Fault);

impl fmt::Display for FaultWords {
    ghost output = { λ w. Some (fault_words w.0) };

    fn fmt<W: fmt::Write>(&self, f: &mut fmt::Formatter<W>) -> fmt::Result {
        match self.0 {
            Fault::Short(bytes) => write!(f, "it ends too soon, after {bytes} bytes"),
            Fault::Limit(place) => write!(
                f,
                "a count or a length at byte {place} is outside its limits"
            ),
            Fault::Unallowed(place) => write!(
                f,
                "byte {place} is no name, kind or letter that may stand there"
            ),
            Fault::Order(place) => write!(
                f,
                "the rule or row at byte {place} does not come after the one before it"
            ),
            Fault::Symbol(place) => write!(f, "byte {place} is a symbol that has no name"),
            Fault::Trailing(place) => write!(f, "bytes follow the last row, from byte {place} on"),
            Fault::Kinds => write!(f, "it has other kinds of numbers"),
        }
    }
}

// A fault of the file with that name.
#[derive(Clone, Copy)]
pub struct FileSentence<'a> {
    pub name: &'a str,
    pub fault: Fault,
}

impl fmt::Display for FileSentence<'_> {
    ghost output = { λ s. Some (file_sentence s.name.now s.fault) };

    fn fmt<W: fmt::Write>(&self, f: &mut fmt::Formatter<W>) -> fmt::Result {
        let name = self.name;
        let words = FaultWords(self.fault);
        write!(f, "{name}: file: {words}")
    }
}

// The kinds of a file by their words.
#[derive(Clone, Copy)]
struct KindWords<'a>(&'a [u8]);

impl fmt::Display for KindWords<'_> {
    fn fmt<W: fmt::Write>(&self, f: &mut fmt::Formatter<W>) -> fmt::Result {
        // A checked file has at most two kinds, and no others than the three.
        let word = |byte: u8| Kind::try_from(byte).unwrap_or(Kind::OddOnes);
        match self.0 {
            [] => write!(f, "no kind of number"),
            [kind] => write!(f, "the kind {}", word(*kind)),
            [kind, other, ..] => write!(f, "the kinds {} and {}", word(*kind), word(*other)),
        }
    }
}

// Two files whose kinds are not the same.
#[derive(Clone, Copy)]
pub struct KindsSentence<'a> {
    pub names: [&'a str; 2],
    pub files: [Checked<'a>; 2],
}

impl fmt::Display for KindsSentence<'_> {
    fn fmt<W: fmt::Write>(&self, f: &mut fmt::Formatter<W>) -> fmt::Result {
        let [first, second] = self.names;
        let [one, two] = self.files;
        let one = KindWords(one.kinds);
        let two = KindWords(two.kinds);
        write!(f, "file: {first} has {one}, and {second} has {two}")
    }
}

// A fault of the question.
#[derive(Clone, Copy)]
pub struct CallSentence<'a> {
    pub first: Given<'a>,
    pub second: Given<'a>,
    pub fault: CallFault,
}

impl<'a> CallSentence<'a> {
    // The file that has a symbol of the twin, and the symbol's name there.
    fn place(&self, symbol: u8) -> (&'a str, char) {
        let at = usize::from(symbol);
        let own = at.saturating_sub(self.first.file.names.len());
        let (given, at) = match self.first.file.names.get(at) {
            Some(_) => (self.first, at),
            None => (self.second, own),
        };
        let name = given.file.names.get(at).copied().unwrap_or(b'?');
        (given.name, char::from(name))
    }
}

impl fmt::Display for CallSentence<'_> {
    fn fmt<W: fmt::Write>(&self, f: &mut fmt::Formatter<W>) -> fmt::Result {
        match self.fault {
            CallFault::LongWord { word, length } => {
                let which = if word == 1 { "first" } else { "second" };
                write!(
                    f,
                    "comparer: the {which} word has {length} symbols, and 8 are the most"
                )
            }
            CallFault::Grammar(GrammarFault::Count(count)) => {
                let one = self.first.file.names.len();
                let two = self.second.file.names.len();
                write!(
                    f,
                    "grammar: the two files have {one} and {two} symbols, together {count}, and 32 are the most"
                )
            }
            CallFault::Grammar(GrammarFault::NoInput(symbol)) => {
                let (file, name) = self.place(symbol);
                write!(f, "{file}: grammar: the symbol {name} takes no input")
            }
            CallFault::Grammar(GrammarFault::TooLong(symbol)) => {
                let (file, name) = self.place(symbol);
                write!(
                    f,
                    "{file}: grammar: each input that the symbol {name} takes has more than 64 letters"
                )
            }
            // Of checked files and spelled words there is no other fault.
            _ => write!(f, "comparer: the question is refused"),
        }
    }
}
