// Scripts of many kinds, most of them wrong, each with what it answers.
#![tactic(auto)]

use elements::f257::F257;
use script::replies::answer;
use std::io::{LineWriter, Write};
use std::{env, fs};

fn show(rt: &HostRuntime, name: &str) -> anyhow::Result<()> {
    let text = fs::read(rt, name)?;
    println!(rt; "== {name}")?;
    let answers = answer::<F257>(rt.alloc(), text.as_slice())?;
    // a write for each line, as `batch_verify` prints
    let mut out = LineWriter::new(rt.alloc(), rt.stdout())?;
    write!(out, "{answers}")?;
    out.flush()?;
    Ok(())
}

fn show_all(rt: &HostRuntime) -> anyhow::Result<()> {
    for name in env::args(rt)?.skip(1) {
        show(rt, name.as_str())?;
    }
    Ok(())
}

fn main(rt: HostRuntime) -> anyhow::Result<()> {
    show_all(&rt)
}
