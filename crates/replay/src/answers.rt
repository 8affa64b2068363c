// Calls on a comparer, and their answers.
use crate::call::Call;
use crate::shown::{Hexadecimal, Letters, Numbers, Refusal, copied_rows};
use calls::{Answer, CallFault};
use comparer::Comparer;
use format::FileTally;
use layout::FaultCode;
use std::io;

// Compares two words with a buffer of so many bytes.
fn compare<T: FileTally>(
    rt: &(impl Print + AllocGlobal),
    comparer: &mut Comparer<T>,
    one: &[u8],
    two: &[u8],
    room: usize,
) -> anyhow::Result<()> {
    let mut out = vec![in rt.alloc(); 0; room]?;
    let answer = comparer.compare(one, two, &mut out);
    let rows = copied_rows(comparer);
    match answer {
        Ok(Answer::Same) => println!(rt; "same {rows}")?,
        Ok(Answer::Different(len)) => {
            let witness = Letters(out.get(..len).unwrap_or(&[]));
            println!(rt; "different {rows} {witness}")?
        }
        Err(fault) => {
            let refusal = Refusal(FaultCode::from(fault));
            println!(rt; "{refusal} {rows}")?
        }
    }
    Ok(())
}

// Offers a rows section.
fn offer<T: FileTally>(
    rt: &impl Print,
    comparer: &mut Comparer<T>,
    section: &[u8],
) -> io::Result<()> {
    let outcome = comparer.offer(section);
    let rows = copied_rows(comparer);
    match outcome {
        Ok(()) => println!(rt; "ok {rows}"),
        Err(fault) => {
            let refusal = Refusal(FaultCode::from(fault));
            println!(rt; "{refusal} {rows}")
        }
    }
}

// Says what came of a run.
fn say_run<T: FileTally>(rt: &impl Print, outcome: Result<Option<T>, CallFault>) -> io::Result<()> {
    match outcome {
        Ok(Some(tally)) => {
            let numbers = Numbers(tally);
            println!(rt; "taken {numbers}")
        }
        Ok(None) => println!(rt; "not"),
        Err(fault) => rt.println(Refusal(FaultCode::from(fault))),
    }
}

// Copies the rows to a buffer of so many bytes.
fn copy<T: FileTally>(
    rt: &(impl Print + AllocGlobal),
    comparer: &Comparer<T>,
    room: usize,
) -> anyhow::Result<()> {
    let mut out = vec![in rt.alloc(); 0; room]?;
    match comparer.copy_rows(&mut out) {
        Ok(len) => rt.println(Hexadecimal(out.get(..len).unwrap_or(&[])))?,
        Err(fault) => rt.println(Refusal(FaultCode::from(fault)))?,
    }
    Ok(())
}

// Writes a file with these names to a buffer of so many bytes.
fn write<T: FileTally>(
    rt: &(impl Print + AllocGlobal),
    comparer: &Comparer<T>,
    names: &[u8],
    room: usize,
) -> anyhow::Result<()> {
    let mut out = vec![in rt.alloc(); 0; room]?;
    match comparer.write_file(names, &mut out) {
        Ok(len) => rt.println(Hexadecimal(out.get(..len).unwrap_or(&[])))?,
        Err(fault) => rt.println(Refusal(FaultCode::from(fault)))?,
    }
    Ok(())
}

// Makes a call and prints its answer.
pub fn answer<T: FileTally>(
    rt: &(impl Print + AllocGlobal),
    comparer: &mut Comparer<T>,
    call: &Call,
) -> anyhow::Result<()> {
    match call {
        Call::Compare { one, two, room } => compare(rt, comparer, one, two, *room)?,
        Call::Offer(section) => offer(rt, comparer, section)?,
        Call::Clear => {
            comparer.clear();
            rt.println(copied_rows(comparer))?
        }
        Call::Run { word, input } => say_run(rt, comparer.run(word, input))?,
        Call::Copy(room) => copy(rt, comparer, *room)?,
        Call::Write { names, room } => write(rt, comparer, names, *room)?,
    }
    Ok(())
}
