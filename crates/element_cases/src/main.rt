// Sums, products and inverses of elements: reads a table of questions and prints each with its answer.
#![tactic(auto)]

use anyhow::{Context, anyhow};
use elements::babybear::BabyBear;
use elements::babybear::kind::x_times_x_cubed;
use elements::f257::F257;
use elements::field::Field;
use elements::laws::consequences;
use elements::lists::exp_u64;
use script::numbers::read_number;
use script::values::{Written, read_element, written_reads_back};
use std::alloc::Global;
use std::{env, fs};

// The element that a word writes.
fn operand<E: Field>(heap: Global, word: &str) -> anyhow::Result<E> {
    read_element(heap, word.as_bytes())?
        .and_then(|offered| offered.ok())
        .context("a word is no element")
}

fn number(word: &str) -> anyhow::Result<u64> {
    read_number(word.as_bytes()).context("a word is no number")
}

fn at_most_32_bits(word: &str) -> anyhow::Result<u32> {
    u32::try_from(number(word)?)
        .ok()
        .context("a number does not fit 32 bits")
}

// The answer to a question with these words, where there is one. A `usize` holds every `u64` here, so `as` loses nothing.
fn answer<E: Field>(heap: Global, words: &[&str]) -> anyhow::Result<Option<E>> {
    let element = |word: &str| operand::<E>(heap, word);
    match words {
        ["inverse", a, ..] => Ok(element(a)?.try_inverse()),
        ["negation", a, ..] => Ok(Some(element(a)?.neg())),
        ["root", bits, ..] => Ok(E::two_adic_generator(number(bits)? as usize)),
        ["basis", e, ..] => Ok(Some(E::basis_power(number(e)?))),
        ["embed", n, ..] => Ok(Some(E::from_u32(at_most_32_bits(n)?))),
        [] | [_] | [_, _] => Err(anyhow!("a line has too few words")),
        ["sum", a, b, ..] => Ok(Some(element(a)?.add(element(b)?))),
        ["difference", a, b, ..] => Ok(Some(element(a)?.sub(element(b)?))),
        ["product", a, b, ..] => Ok(Some(element(a)?.mul(element(b)?))),
        ["power", a, n, ..] => Ok(Some(exp_u64(element(a)?, number(n)?))),
        // the operand is looked at first, so that a wrong one is named before a wrong question
        [_, a, ..] => {
            element(a)?;
            Err(anyhow!("a line asks for nothing known"))
        }
    }
}

fn show<E: Field>(rt: &HostRuntime, words: &[&str], line: &str) -> anyhow::Result<()> {
    match answer::<E>(rt.alloc(), words)? {
        None => println!(rt; "{line} = none")?,
        Some(value) => println!(rt; "{line} = {}", Written(value))?,
    }
    Ok(())
}

// A line is a field, a question and its operands.
fn show_line(rt: &HostRuntime, line: &str) -> anyhow::Result<()> {
    let words: Vec<&str> = line.split_whitespace().collect(rt.alloc())?;
    match words.as_slice() {
        [] => Ok(()),
        ["babybear", question @ ..] => show::<BabyBear>(rt, question, line),
        ["f257", question @ ..] => show::<F257>(rt, question, line),
        _ => Err(anyhow!("a line names no field")),
    }
}

fn show_file(rt: &HostRuntime, name: &str) -> anyhow::Result<()> {
    let text = fs::read_to_string(rt, name)?;
    for line in text.as_str().lines() {
        show_line(rt, line)?;
    }
    Ok(())
}

fn show_all(rt: &HostRuntime) -> anyhow::Result<()> {
    // what follows from the laws holds of both kinds
    consequences::<F257>();
    consequences::<BabyBear>();
    // and what is printed of an element reads back as that element
    written_reads_back::<F257>();
    written_reads_back::<BabyBear>();
    println!(rt; "x*x^3 = {}", Written(x_times_x_cubed()))?;
    for name in env::args(rt)?.skip(1) {
        show_file(rt, name.as_str())?;
    }
    Ok(())
}

fn main(rt: HostRuntime) -> anyhow::Result<()> {
    show_all(&rt)
}
