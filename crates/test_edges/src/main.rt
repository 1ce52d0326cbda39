// The edges of the run program: each script of data/ by name, and what is printed for it. Another implementation of the rules
// printed the expected output.
#![tactic(auto)]

use std::fs::File;
use std::io;
use std::io::{Read, Write};
use std::rt::Files;

fn line(rt: &impl Print, text: &str) -> io::Result<()> {
    println!(rt; "{text}")
}

fn show(rt: &(impl Files + Print), name: &str) -> io::Result<()> {
    line(rt, name)?;
    // As the run program does: one byte more than a script may have, and the same room for the output.
    let mut input = [0u8; 65_537];
    let mut output = [0u8; 262_144];
    let mut script = File::open(rt, name)?.take(65_537);
    let read = io::copy(&mut script, &mut &mut input[..])? as usize;
    let n = read.min(input.len());
    let m = sheet_run::run(&input[..n], &mut output);
    io::writer(rt).write_all(&output[..m])
}

// Each refusal that a script can reach, each form of a line that is not understood, and the limits.
fn lines(rt: &(impl Files + Print)) -> io::Result<()> {
    let names = [
        "p12", "position", "inserts", "edits", "pending", "buffer", "number", "forms", "one",
        "alone", "eight", "full", "most", "long",
    ];
    for name in names {
        show(rt, name)?;
    }
    Ok(())
}

// First lines.
fn firsts(rt: &(impl Files + Print)) -> io::Result<()> {
    let names = [
        "first_empty",
        "first_blank",
        "first_word",
        "first_items",
        "first_space",
        "first_spaces",
        "first_wide",
        "first_item_wide",
        "first_none",
        "first_nine",
        "first_129",
        "first_128",
        "first_alone",
        "first_zeros",
    ];
    for name in names {
        show(rt, name)?;
    }
    Ok(())
}

fn main(rt: HostRuntime) -> io::Result<()> {
    lines(&rt)?;
    firsts(&rt)
}
