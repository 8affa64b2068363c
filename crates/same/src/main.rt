// Says whether two words of two files are the same, and on whose word: `same` with the rows that prove it, or
// `different` with an input on which the words differ and what each of them makes of it; or the line `refused N A B`,
// and on standard error why. The status is 0 for same, 1 for different, and 2 for a refusal or any trouble.
#![tactic(auto)]

mod given;
mod sentences;

use anyhow::{Context, anyhow};
use asking::{
    Answered, Arguments, Labels, Outcome, WrittenWord, answer_text, ask_files, raise_word, spell,
};
use calls::{CallFault, MIN_COPY};
use format::{Checked, FileTally};
use given::Given;
use grammar::MAX_INPUT;
use layout::{Fault, FaultCode};
use sentences::{CallSentence, FileSentence, KindsSentence};
use stated::check_any;
use std::fmt::Display;
use std::io::{self, Write};
use std::process::ExitCode;
use std::rt::{Env, Files};
use std::{env, fs};
use tally::{FootMm, LastMm, OddOnes, Pair, Untallied};

const USAGE: &str = "\
usage: same FILE1 WORD1 FILE2 WORD2 [--rows OUT]
A word is written as its names run together; - is the empty word.
--rows, before or behind them, writes the rows that prove a \"same\" to the file OUT.
example: same samples/seven.book kq samples/seven.book qk";

// The statuses.
const SAME: u8 = 0;

const DIFFERENT: u8 = 1;

const TROUBLE: u8 = 2;

// What is asked: two checked files, their words, and the words as they were written.
#[derive(Clone, Copy)]
struct Asked<'a> {
    arguments: Arguments<'a>,
    first: Given<'a>,
    second: Given<'a>,
    one: &'a [u8],
    two: &'a [u8],
}

// Says that it is refused, and why.
fn refuse(
    rt: &(impl Print + Eprint),
    code: FaultCode,
    sentence: impl Display + Drop,
) -> anyhow::Result<u8> {
    println!(rt; "refused {code}")?;
    eprintln!(rt; "{sentence}")?;
    Ok(TROUBLE)
}

// Writes the rows of a "same" to the file, if one is named.
fn write_rows<T: FileTally>(
    rt: &impl Files,
    rows: Option<&str>,
    answered: &Answered<T>,
) -> anyhow::Result<()> {
    let Some(name) = rows else {
        return Ok(());
    };
    let mut section = [0; MIN_COPY];
    // A comparer that answers is not refused a copy.
    let length = answered.comparer.copy_rows(&mut section).unwrap_or(0);
    let bytes = section.get(..length).unwrap_or(&[]);
    fs::write(rt, name, bytes).context(format_args!("writing {name}"))
}

impl Asked<'_> {
    // Asks with the tally T.
    fn ask<T: FileTally>(&self, out: &mut [u8]) -> Result<Answered<T>, CallFault> {
        ask_files(self.first.file, self.second.file, self.one, self.two, out)
    }
}

// Says the answer, with what the question left in the buffer.
fn say_answer<T: FileTally>(
    rt: &(impl Print + Files + AllocGlobal),
    asked: &Asked,
    answered: &Answered<T>,
    out: &[u8],
) -> anyhow::Result<u8> {
    let labels = Labels {
        first: asked.first.file.names,
        second: asked.second.file.names,
        kinds: asked.first.file.kinds,
    };
    let one = asked.arguments.first.word.as_bytes();
    let two = asked.arguments.second.word.as_bytes();
    let text = answer_text(rt.alloc(), &labels, one, two, answered, out)?;
    io::writer(rt).write_all(&text)?;
    match answered.outcome {
        Outcome::Same => {
            write_rows(rt, asked.arguments.rows, answered)?;
            Ok(SAME)
        }
        Outcome::Different { .. } => Ok(DIFFERENT),
    }
}

// Says the answer, or why there is none.
fn say<T: FileTally>(
    rt: &(impl Print + Eprint + Files + AllocGlobal),
    asked: &Asked,
    answered: Result<Answered<T>, CallFault>,
    out: &[u8],
) -> anyhow::Result<u8> {
    match answered {
        Ok(answered) => say_answer(rt, asked, &answered, out),
        Err(fault) => {
            let sentence = CallSentence {
                first: asked.first,
                second: asked.second,
                fault,
            };
            refuse(rt, FaultCode::from(fault), sentence)
        }
    }
}

// Asks with the tally whose kinds both files state, and says the answer.
fn answer(rt: &(impl Print + Eprint + Files + AllocGlobal), asked: &Asked) -> anyhow::Result<u8> {
    let mut out = [0; MAX_INPUT];
    // A macro: what asks for a tally names it in its type.
    macro_rules! answer_as {
        ($tally:ty) => {{
            let answered = asked.ask::<$tally>(&mut out);
            say(rt, asked, answered, &out)
        }};
    }
    match asked.first.file.kinds {
        [] => answer_as!(Untallied),
        [1] => answer_as!(FootMm),
        [2] => answer_as!(LastMm),
        [3] => answer_as!(OddOnes),
        [1, 2] => answer_as!(Pair<FootMm, LastMm>),
        [1, 3] => answer_as!(Pair<FootMm, OddOnes>),
        // A checked file states no other kinds.
        _ => answer_as!(Pair<LastMm, OddOnes>),
    }
}

// The word of a file.
fn word_of(rt: &impl AllocGlobal, file: &Checked, written: WrittenWord) -> anyhow::Result<Vec<u8>> {
    let WrittenWord { name, word } = written;
    spell(rt.alloc(), file.names, word.as_bytes()).map_err(|error| anyhow!(
        "{name}: word {word}: {error}"
    ))
}

// Answers the arguments over the bytes of both files.
fn answer_files<'a>(
    rt: &(impl Print + Eprint + Files + AllocGlobal),
    arguments: Arguments<'a>,
    first: &'a [u8],
    second: &'a [u8],
) -> anyhow::Result<u8> {
    let names = [arguments.first.name, arguments.second.name];
    let [name, other] = names;
    let first = match check_any(first) {
        Ok(file) => file,
        Err(fault) => return refuse(rt, FaultCode::from(fault), FileSentence { name, fault }),
    };
    let second = match check_any(second) {
        Ok(file) => file,
        Err(fault) => {
            return refuse(
                rt,
                FaultCode::from(fault),
                FileSentence { name: other, fault },
            );
        }
    };
    if first.kinds != second.kinds {
        let files = [first, second];
        return refuse(
            rt,
            FaultCode::from(Fault::Kinds),
            KindsSentence { names, files },
        );
    }
    let one = word_of(rt, &first, arguments.first)?;
    let two = word_of(rt, &second, arguments.second)?;
    // A checked file has at most 32 names.
    let count = u8::try_from(first.names.len()).unwrap_or(u8::MAX);
    let two = raise_word(rt.alloc(), &two, count)?;
    let asked = Asked {
        arguments,
        first: Given { name, file: first },
        second: Given {
            name: other,
            file: second,
        },
        one: &one,
        two: &two,
    };
    answer(rt, &asked)
}

// Answers the arguments.
fn answer_arguments(
    rt: &(impl Print + Eprint + Files + AllocGlobal),
    arguments: Arguments,
) -> anyhow::Result<u8> {
    let name = arguments.first.name;
    let other = arguments.second.name;
    let first = fs::read(rt, name).context(format_args!("reading {name}"))?;
    let second = fs::read(rt, other).context(format_args!("reading {other}"))?;
    answer_files(rt, arguments, &first, &second)
}

fn run(rt: &(impl Print + Eprint + Files + Env + AllocGlobal)) -> anyhow::Result<u8> {
    let given: Vec<String> = env::args(rt)?.skip(1).collect(rt.alloc())?;
    let words: Vec<&str> = given.iter().map(|word| word.as_str()).collect(rt.alloc())?;
    match Arguments::parse(&words) {
        Some(arguments) => answer_arguments(rt, arguments),
        None => {
            eprintln!(rt; "{USAGE}")?;
            Ok(TROUBLE)
        }
    }
}

fn main(rt: HostRuntime) -> ExitCode {
    match run(&rt) {
        Ok(status) => ExitCode::from(status),
        Err(error) => {
            // Where standard error fails too, the status is all that can be told.
            let _ = eprintln!(rt; "same: {error:#}");
            ExitCode::from(TROUBLE)
        }
    }
}
