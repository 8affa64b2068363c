// Prints files readably, each part with its place in the bytes, and then the norm and the first input
// of each symbol; or one line `refused N A B`. Arguments name the files, each printed below a line with
// its name; a minus sign, as well as no argument, stands for standard input.
#![tactic(auto)]

mod inspected;
mod listing;
mod parts;

use inspected::inspect;
use listing::show;
use std::env::FillError;
use std::io::Read;
use std::rt::{Env, Files};
use std::{env, fs, io};

// The bytes of the file with that name.
fn bytes_of(rt: &(impl Input + Files + AllocGlobal), name: &str) -> io::Result<Vec<u8>> {
    if name != "-" {
        return fs::read(rt, name);
    }
    let mut bytes = Vec::new(rt.alloc());
    rt.reader().read_to_end(&mut bytes)?;
    Ok(bytes)
}

// Prints the file with that name, or the fault's number and its two numbers.
fn print_file(rt: &(impl Print + Input + Files + AllocGlobal), name: &str) -> anyhow::Result<()> {
    let bytes = bytes_of(rt, name)?;
    match inspect(&bytes) {
        Ok(inspected) => show(rt, &inspected)?,
        Err(code) => println!(rt; "refused {code}")?,
    }
    Ok(())
}

// Prints the files that are named, or standard input.
fn run(rt: &(impl Print + Input + Files + Env + AllocGlobal)) -> anyhow::Result<()> {
    // Without arguments none is copied: the program's own name may be no text.
    if let Err(FillError::NotPresent) = rt.arg(1, &mut [0; 1]) {
        return print_file(rt, "-");
    }
    for name in env::args(rt)?.skip(1) {
        println!(rt; "{name}:")?;
        print_file(rt, name.as_str())?;
    }
    Ok(())
}

fn main(rt: HostRuntime) -> anyhow::Result<()> {
    run(&rt)
}
