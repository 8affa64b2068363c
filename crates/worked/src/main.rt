// The worked examples as a program: a table of words and inputs over the example grammar and over
// its twin with itself, the norms and first inputs of its symbols, comparisons and offers, and then the lines
// of standard input, each of the form `WORD INPUT`.
#![tactic(auto)]

mod comparisons;
mod norms;
mod outcome;
mod query;
mod raising;
mod reading;
mod runs;
mod seven;

use comparisons::make_calls;
use grammar::{Grammar, ListGrammar, Twin};
use norms::survey_symbols;
use outcome::Outcome;
use query::QueryError;
use reading::{Lines, read};
use runs::{outcome_in_second, outcome_of};
use seven::seven_symbols;
use std::io;
use std::io::Read;
use tally::FootMm;

// Words and inputs that are worked out by hand.
const TABLE: &[u8] = b"bb SLLL\nb SL\n- -\nb L\nf L\nk PL\nq PL\nkq PLPL\nb l\n";

// Bytes as they are shown, as a line need not be text. A type of its own only to print it is no plainer.
fn shown(bytes: &[u8]) -> &str {
    std::str::from_utf8(bytes).unwrap_or("(bytes that are no text)")
}

// Says what happened on a line. A type of its own only to print an outcome is no plainer.
fn say(rt: &impl Print, place: &str, line: &[u8], outcome: Outcome) -> io::Result<()> {
    let query = shown(line);
    match outcome {
        Ok(Some(mm)) => println!(rt; "{place}: {query}: taken with {mm}"),
        Ok(None) => println!(rt; "{place}: {query}: not taken"),
        Err(too_long) => println!(rt; "{place}: refused, {too_long}"),
    }
}

// Answers every line of a text over a grammar.
fn answer_all<G: Grammar<T = FootMm>>(
    rt: &(impl Print + AllocGlobal),
    g: &G,
    place: &str,
    text: &[u8],
) -> anyhow::Result<()> {
    for line in Lines(text) {
        match read(rt.alloc(), line) {
            Ok(query) => say(rt, place, line, outcome_of(g, &query.word, query.input))?,
            Err(error @ QueryError::OutOfMemory) => return Err(error.into()),
            Err(mistake) => {
                let query = shown(line);
                println!(rt; "{place}: {query}: refused, {mistake}")?
            }
        }
    }
    Ok(())
}

// Answers the table over a twin, for words of its second grammar. A loop of its own: this run allocates,
// and a closure that does is no plainer.
fn answer_second(
    rt: &(impl Print + AllocGlobal),
    twin: &Twin<ListGrammar<FootMm>, ListGrammar<FootMm>>,
) -> anyhow::Result<()> {
    for line in Lines(TABLE) {
        match read(rt.alloc(), line) {
            Ok(query) => {
                let outcome = outcome_in_second(rt.alloc(), twin, &query.word, query.input)?;
                say(rt, "twin, second", line, outcome)?
            }
            Err(error @ QueryError::OutOfMemory) => return Err(error.into()),
            // The table has no such line.
            Err(_) => {}
        }
    }
    Ok(())
}

fn run(rt: &(impl Print + Input + AllocGlobal)) -> anyhow::Result<()> {
    let heap = rt.alloc();
    let g = seven_symbols(heap)?;
    answer_all(rt, &g, "grammar", TABLE)?;
    let twin = Twin::new(seven_symbols(heap)?, seven_symbols(heap)?);
    answer_all(rt, &twin, "twin, first", TABLE)?;
    answer_second(rt, &twin)?;
    survey_symbols(rt, &g)?;
    make_calls(rt, &g)?;
    let mut text = Vec::new(heap);
    rt.reader().read_to_end(&mut text)?;
    answer_all(rt, &g, "line", &text)
}

fn main(rt: HostRuntime) -> anyhow::Result<()> {
    run(&rt)
}
