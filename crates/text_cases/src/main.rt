// Numbers, elements, commitments and error lines as texts, with what they read back as.
#![tactic(auto)]

use elements::babybear::BabyBear;
use elements::babybear::kind::x_times_x_cubed;
use elements::commitment::Commitment;
use elements::f257::F257;
use elements::field::Field;
use script::numbers::{read_number, write_number};
use script::replies::{answer, error_text};
use script::values::{read_commitment, read_element, write_commitment, write_element};

fn show_number(rt: &HostRuntime, number: u64) -> anyhow::Result<()> {
    let mut text = String::from_str(rt.alloc(), "+")?;
    write_number(rt.alloc(), &mut text, number)?;
    let back = read_number(&text.as_str().as_bytes()[1..]) == Some(number);
    println!(rt; "{text} {back}")?;
    Ok(())
}

fn show_element(rt: &HostRuntime) -> anyhow::Result<()> {
    let element = x_times_x_cubed();
    let mut text = String::new(rt.alloc());
    write_element(rt.alloc(), &mut text, element)?;
    let read = read_element::<BabyBear>(rt.alloc(), text.as_str().as_bytes())?;
    let back = match read {
        Some(Ok(read)) => read.coefficients() == element.coefficients(),
        _ => false,
    };
    println!(rt; "{text} {back}")?;
    Ok(())
}

fn show_commitment(rt: &HostRuntime, commitment: &Commitment) -> anyhow::Result<()> {
    let mut text = String::new(rt.alloc());
    write_commitment(&mut text, commitment)?;
    let back = read_commitment(text.as_str().as_bytes()) == Some(*commitment);
    println!(rt; "{text} {back}")?;
    Ok(())
}

// The error line of a script, where it has one.
fn show_error(rt: &HostRuntime, script: &str) -> anyhow::Result<()> {
    let answers = answer::<F257>(rt.alloc(), script.as_bytes())?;
    match answers.error {
        None => rt.println("no error")?,
        Some(error) => rt.println(error_text(rt.alloc(), error)?)?,
    }
    Ok(())
}

fn main(rt: HostRuntime) -> anyhow::Result<()> {
    show_number(&rt, 0)?;
    show_number(&rt, u64::MAX)?;
    show_element(&rt)?;
    let mut bytes = [0u8; 32];
    show_commitment(&rt, &Commitment { bytes })?;
    bytes[0] = 0xab;
    bytes[31] = 0x0f;
    show_commitment(&rt, &Commitment { bytes })?;
    show_error(&rt, "field f257\n")?;
    show_error(&rt, "field f257\nnonsense\n")
}
