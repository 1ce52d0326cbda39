// The run program: standard input, and what `sheet_run` makes of it on standard output.
#![tactic(auto)]

use std::io;
use std::io::{Read, Write};

fn main(rt: HostRuntime) -> io::Result<()> {
    // A script has at most 65,536 bytes. One more is read, which tells `run` that the input is too long.
    let mut input = [0u8; 65_537];
    let mut output = [0u8; 262_144];
    let mut script = rt.stdin().take(65_537);
    let read = io::copy(&mut script, &mut &mut input[..])? as usize;
    let n = read.min(input.len());
    let m = sheet_run::run(&input[..n], &mut output);
    rt.stdout().write_all(&output[..m])
}
