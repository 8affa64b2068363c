// Plays a script, piece by piece.
use crate::answers::answer;
use crate::grammars::Subject;
use crate::kinds::{Kinds, with_tally};
use crate::pieces::{Piece, Pieces};
use crate::script::{Line, lines};
use crate::shown::Refusal;
use comparer::Comparer;
use format::FileTally;
use layout::{FaultCode, Kind};
use std::io;
use std::marker::PhantomData;
use tally::{FootMm, LastMm, OddOnes, Pair, Untallied};

// Answers a line that asks no comparer.
fn answer_alone(rt: &impl Print, line: &Line) -> io::Result<()> {
    match line {
        Line::Case(text) => println!(rt; "{text}"),
        Line::Check(kinds, file) => match kinds.file_fault(file) {
            Some(fault) => rt.println(Refusal(FaultCode::from(fault))),
            None => println!(rt; "ok"),
        },
        _ => println!(rt; "malformed"),
    }
}

// Answers lines over a grammar.
fn answer_over<T: FileTally>(
    rt: &(impl Print + AllocGlobal),
    mut comparer: Comparer<T>,
    lines: &[Line],
) -> anyhow::Result<()> {
    for line in lines {
        match line {
            Line::Call(call) => answer(rt, &mut comparer, call)?,
            _ => answer_alone(rt, line)?,
        }
    }
    Ok(())
}

// Plays lines over a grammar that so many lines give.
fn play(
    rt: &(impl Print + AllocGlobal),
    subject: Subject<'_>,
    lines: &[Line],
) -> anyhow::Result<()> {
    for _ in 0..subject.lines() {
        println!(rt; "ok")?;
    }
    with_tally!(subject.kinds(), tally => {
        answer_over(rt, subject.comparer(rt.alloc(), tally)?, lines)
    })
}

// Plays a script: prints a line for each of its lines.
pub fn replay(rt: &(impl Print + AllocGlobal), text: &[u8]) -> anyhow::Result<()> {
    let lines = lines(rt.alloc(), text)?;
    for piece in Pieces(&lines) {
        match piece {
            Piece::Over(subject, lines) => play(rt, subject, lines)?,
            Piece::Alone(line) => answer_alone(rt, line)?,
        }
    }
    Ok(())
}
