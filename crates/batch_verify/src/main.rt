// Reads batch scripts and prints their answers.
#![tactic(auto)]

use elements::f257::F257;
use script::replies::answer;
use std::io::{LineWriter, Read, Write};
use std::process::ExitCode;
use std::{env, fs};

const HELP: &str = "batch_verify: reads batch scripts and prints a line for each answer

usage: batch_verify [FILE ..]

Each FILE is a script of its own. With no FILE one script is read from standard input.
A script that cannot be read on ends with a line `script error: line N: WHAT`; the
answers before it stand. The status is then 1, and 0 otherwise.

  --help    prints this

A script in short (docs/SCRIPT.md has the whole form):

  field f257                              the field, first
  clear ZK SMALLEST LARGEST               a store of tables, as coefficients
    numbers N N ..                        one list of numbers, on any number of lines
    entry COMMIT MATRIX B START COLUMNS   2^B numbers a column, from START on
  end
  open COMMIT MATRIX B ELEMENT            prints the columns' values at the point
";

// Prints what a script answers; false where it cannot be read on. A bool, since `main` asks nothing but whether all were read.
fn run(rt: &HostRuntime, text: &[u8]) -> anyhow::Result<bool> {
    let answers = answer::<F257>(rt.alloc(), text)?;
    // A write for each line, where `rt.print` cuts lines: so runs that share a pipe or a log do not mix within a line.
    let mut out = LineWriter::new(rt.alloc(), rt.stdout())?;
    write!(out, "{answers}")?;
    out.flush()?;
    Ok(answers.error.is_none())
}

fn run_input(rt: &HostRuntime) -> anyhow::Result<bool> {
    let mut text = Vec::new(rt.alloc());
    rt.stdin().read_to_end(&mut text)?;
    run(rt, text.as_slice())
}

// A script from a file; false also where there is no such file.
fn run_file(rt: &HostRuntime, name: &str) -> anyhow::Result<bool> {
    match fs::read(rt, name) {
        Ok(text) => run(rt, text.as_slice()),
        Err(e) => {
            eprintln!(rt; "batch_verify: {name}: {e}")?;
            Ok(false)
        }
    }
}

fn run_all(rt: &HostRuntime) -> anyhow::Result<bool> {
    let mut names = env::args(rt)?.skip(1).peekable();
    if names.peek().is_none() {
        return run_input(rt);
    }
    let mut all = true;
    for name in names {
        if name.as_str() == "--help" {
            rt.print(HELP)?;
            return Ok(true);
        }
        let right = run_file(rt, name.as_str())?;
        all = all && right;
    }
    Ok(all)
}

fn main(rt: HostRuntime) -> anyhow::Result<ExitCode> {
    Ok(if run_all(&rt)? {
        ExitCode::SUCCESS
    } else {
        ExitCode::FAILURE
    })
}
