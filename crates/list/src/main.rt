// Lists a file: reads it from standard input, and prints a line for each symbol, with its name, its norm, and the name
// of the smallest symbol that is the same; or the line `refused N A B`.
#![tactic(auto)]

use listing::{MAX_LISTING, list_input};
use std::io::{self, Write};

fn run(rt: &(impl Print + Input)) -> io::Result<()> {
    let mut out = [0; MAX_LISTING];
    let len = list_input(&mut rt.reader(), &mut out)?;
    io::writer(rt).write_all(out.get(..len).unwrap_or(&[]))
}

fn main(rt: HostRuntime) -> io::Result<()> {
    run(&rt)
}
