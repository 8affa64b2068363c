// Replays a script of calls: for each line of standard input, one line with its answer.
#![tactic(auto)]

mod answers;
mod call;
mod grammars;
mod kinds;
mod misread;
mod pieces;
mod play;
mod script;
mod shown;
mod values;

use play::replay;
use std::io::Read;

fn run(rt: &(impl Print + Input + AllocGlobal)) -> anyhow::Result<()> {
    let mut text = Vec::new(rt.alloc());
    rt.reader().read_to_end(&mut text)?;
    replay(rt, &text)
}

fn main(rt: HostRuntime) -> anyhow::Result<()> {
    run(&rt)
}
