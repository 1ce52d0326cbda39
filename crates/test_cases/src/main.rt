// The marked cases P1 to P10 by the code that runs. An edit is printed as its kind (1 insert, 2 delete, 3 nothing), position, item and
// priority; a message as its bytes, written and read again.
#![tactic(auto)]

ghost use Rattle.std.specs.Prelude.{◌<◌};
ghost use Rattle.ot.specs.Form.{position_of};

use list::Origin;
use ot::Form;
use std::io;
use wire::{Header, Message};

fn number(rt: &impl Print, n: u64) -> io::Result<()> {
    print!(rt; " {n}")
}

fn byte(rt: &impl Print, b: u8) -> io::Result<()> {
    print!(rt; " {b:02x}")
}

fn label(rt: &impl Print, n: u64) -> io::Result<()> {
    print!(rt; "P{n}")
}

fn edit(rt: &impl Print, f: Form, x: u32) -> io::Result<()> {
    match f {
        Form::Nothing => println!(rt; " 3"),
        Form::Delete(p) => println!(rt; " 2 {p}"),
        Form::Insert(p, r) => println!(rt; " 1 {p} {x} {r}"),
    }
}

// The edit of form a and item x after another of form b. A delete has item 0.
fn case(rt: &impl Print, n: u64, a: Form, x: u32, b: Form) -> io::Result<()>
    requires { position_of a < 65535 }
{
    label(rt, n)?;
    let form = ot::transform(a, b).form;
    edit(rt, form, x)
}

fn bytes(rt: &impl Print, s: &[u8]) -> io::Result<()> {
    for b in s {
        byte(rt, *b)?;
    }
    Ok(())
}

// What was written, and the length of the message that it reads as, 0 for none.
fn message(rt: &impl Print, n: u64, s: &[u8]) -> io::Result<()> {
    label(rt, n)?;
    bytes(rt, s)?;
    match wire::reading::parse(s) {
        None => number(rt, 0)?,
        Some(m) => number(rt, wire::writing::size(m) as u64)?,
    }
    println!(rt)
}

fn insert_message(rt: &impl Print) -> io::Result<()> {
    let origin = Origin { line: 1, number: 1 };
    let h = Header {
        line: 1,
        direction: 0,
        number: 1,
        seen: 0,
        origin,
    };
    let mut out = [0u8; 17];
    wire::writing::write(Message::Insert(h, 1, 30, 1), &mut out);
    message(rt, 9, &out)
}

fn ack_message(rt: &impl Print) -> io::Result<()> {
    let mut out = [0u8; 5];
    wire::writing::write(Message::Ack(2, 1, 3), &mut out);
    message(rt, 10, &out)
}

fn main(rt: HostRuntime) -> io::Result<()> {
    case(&rt, 1, Form::Insert(2, 1), 7, Form::Insert(2, 2))?;
    case(&rt, 2, Form::Insert(2, 2), 8, Form::Insert(2, 1))?;
    case(&rt, 3, Form::Insert(2, 1), 7, Form::Delete(2))?;
    case(&rt, 4, Form::Insert(3, 1), 7, Form::Delete(2))?;
    case(&rt, 5, Form::Delete(2), 0, Form::Insert(2, 1))?;
    case(&rt, 6, Form::Delete(1), 0, Form::Insert(2, 1))?;
    case(&rt, 7, Form::Delete(2), 0, Form::Delete(2))?;
    case(&rt, 8, Form::Delete(3), 0, Form::Delete(2))?;
    insert_message(&rt)?;
    ack_message(&rt)
}
