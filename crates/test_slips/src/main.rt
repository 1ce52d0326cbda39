// The slips at the bench, and the edges of seen and of origins, by the ends that run. A script of the run program sends every message fresh, so that it
// reaches none of them. Each line is what calls answered: a refusal's number or 0, and where it says so a count.
#![tactic(auto)]

ghost use Rattle.std.specs.Prelude.{◌≡◌, [], ◌∷◌};
ghost use Rattle.line.specs.Taking.{answer_of, done_of};
ghost use Rattle.client.specs.Answers.{inserted, taken};

use client::Client;
use line::Line;
use line::taking::Report;
use refusal::Refusal;
use server::{Counts, Server};
use std::io;

fn number(rt: &impl Print, n: u64) -> io::Result<()> {
    print!(rt; " {n}")
}

fn byte(rt: &impl Print, b: u8) -> io::Result<()> {
    number(rt, b as u64)
}

fn item(rt: &impl Print, x: u32) -> io::Result<()> {
    number(rt, x as u64)
}

fn count(rt: &impl Print, x: u16) -> io::Result<()> {
    number(rt, x as u64)
}

fn insert(c: &mut Client, p: u16, x: u32) -> Result<(), Refusal>
    ensures { done_of result c.new ≡ inserted c.old p x }
{
    c.insert(p, x)
}

// Client 1 takes an insert of client 2 at the front.
fn take_insert(c: &mut Client, number: u8, seen: u8) -> Result<Report, Refusal>
    ensures { answer_of result c.new ≡ taken c.old (5 ∷ 1 ∷ 1 ∷ 0 ∷ number ∷ 0 ∷ seen ∷ 0 ∷ 1 ∷ 0 ∷ 0 ∷ 0 ∷ 9 ∷ 2 ∷ 2 ∷ 0 ∷ number ∷ []) }
{
    let m = [
        5u8, 1, 1, 0, number, 0, seen, 0, 1, 0, 0, 0, 9, 2, 2, 0, number,
    ];
    c.take(&m)
}

// The next message on its line, a delete: made on that line, with that number in two bytes.
fn take_delete(c: &mut Client, maker: u8, high: u8, low: u8) -> Result<Report, Refusal>
    ensures { answer_of result c.new ≡ taken c.old (7 ∷ 1 ∷ 1 ∷ 0 ∷ 1 ∷ 0 ∷ 0 ∷ 0 ∷ 1 ∷ maker ∷ high ∷ low ∷ []) }
{
    let m = [7u8, 1, 1, 0, 1, 0, 0, 0, 1, maker, high, low];
    c.take(&m)
}

// Client 1 takes an acknowledgement.
fn take_ack(c: &mut Client, seen: u8) -> Result<Report, Refusal>
    ensures { answer_of result c.new ≡ taken c.old (4 ∷ 1 ∷ 1 ∷ 0 ∷ seen ∷ []) }
{
    let m = [4u8, 1, 1, 0, seen];
    c.take(&m)
}

// The refusal's number, or 0.
fn answer<T: Drop>(rt: &impl Print, a: Result<T, Refusal>) -> io::Result<()> {
    match a {
        Ok(_) => byte(rt, 0),
        Err(r) => byte(rt, r.number()),
    }
}

// What a client answers to these when it is left as it was.
fn try_insert(rt: &impl Print, c: &Client, number: u8, seen: u8) -> io::Result<()> {
    let mut d = *c;
    answer(rt, take_insert(&mut d, number, seen))
}

fn try_delete(rt: &impl Print, c: &Client, maker: u8, high: u8, low: u8) -> io::Result<()> {
    let mut d = *c;
    answer(rt, take_delete(&mut d, maker, high, low))
}

fn try_ack(rt: &impl Print, c: &Client, seen: u8) -> io::Result<()> {
    let mut d = *c;
    answer(rt, take_ack(&mut d, seen))
}

// Sending an edit is not refused while it is pending.
fn send(rt: &impl Print, c: &Client, number: u16) -> io::Result<()> {
    let mut m = [0u8; 17];
    answer(rt, c.send(1, number, &mut m))
}

// Seen as acknowledged, as made, and one more or less; then a repeat and a gap.
fn seen(rt: &impl Print, mut c: Client) -> io::Result<()> {
    print!(rt; "seen")?;
    try_insert(rt, &c, 1, 0)?;
    try_insert(rt, &c, 1, 2)?;
    try_insert(rt, &c, 1, 3)?;
    let _ = take_ack(&mut c, 1);
    try_insert(rt, &c, 1, 0)?;
    try_insert(rt, &c, 1, 1)?;
    try_ack(rt, &c, 0)?;
    try_ack(rt, &c, 3)?;
    let _ = take_insert(&mut c, 1, 1);
    try_insert(rt, &c, 1, 1)?;
    try_insert(rt, &c, 3, 1)?;
    println!(rt)
}

// A refused or repeated message acknowledges nothing: edit 1 can still be sent.
fn refused(rt: &impl Print, c: &Client) -> io::Result<()> {
    print!(rt; "refused")?;
    let mut a = *c;
    answer(rt, take_insert(&mut a, 2, 2))?;
    send(rt, &a, 1)?;
    let mut b = *c;
    let _ = take_insert(&mut b, 1, 0);
    answer(rt, take_insert(&mut b, 1, 2))?;
    send(rt, &b, 1)?;
    let mut d = *c;
    let _ = take_ack(&mut d, 2);
    send(rt, &d, 1)?;
    println!(rt)
}

// An old message for the next number: the edits that it needs are gone.
fn overtaken(rt: &impl Print, mut c: Client) -> io::Result<()> {
    print!(rt; "overtaken")?;
    let _ = take_ack(&mut c, 2);
    try_insert(rt, &c, 1, 0)?;
    try_insert(rt, &c, 1, 2)?;
    println!(rt)
}

// How many pending edits it was transformed past, 0 for a refusal.
fn passed(rt: &impl Print, a: Result<Report, Refusal>) -> io::Result<()> {
    count(rt, a.map_or(0, |k| k.passed))
}

// Two inserts pending behind the arriving one: both move up by one. How many were passed, the list, and where the two stand now.
fn kept(rt: &impl Print, mut c: Client) -> io::Result<()> {
    print!(rt; "kept")?;
    passed(rt, take_insert(&mut c, 1, 0))?;
    item(rt, c.words[0])?;
    item(rt, c.words[1])?;
    item(rt, c.words[2])?;
    let mut m = [0u8; 17];
    let _ = c.send(1, 1, &mut m);
    byte(rt, m[8])?;
    let _ = c.send(1, 2, &mut m);
    byte(rt, m[8])?;
    println!(rt)
}

// The same list's origins: edit 1 of client 2, the opening item, and edits 1 and 2 of client 1.
fn origins(rt: &impl Print, mut c: Client) -> io::Result<()> {
    print!(rt; "origins")?;
    let _ = take_insert(&mut c, 1, 0);
    item(rt, c.words[640])?;
    item(rt, c.words[641])?;
    item(rt, c.words[642])?;
    item(rt, c.words[643])?;
    println!(rt)
}

// Coming down, the maker is the other of two lines: not the client's own, and none that the sheet has not. Line and number in their ranges.
fn makers(rt: &impl Print, c: &Client) -> io::Result<()> {
    print!(rt; "makers")?;
    try_delete(rt, c, 2, 0, 1)?;
    try_delete(rt, c, 1, 0, 1)?;
    try_delete(rt, c, 3, 0, 1)?;
    try_delete(rt, c, 0, 0, 1)?;
    try_delete(rt, c, 9, 0, 1)?;
    try_delete(rt, c, 2, 0, 0)?;
    try_delete(rt, c, 2, 1, 144)?;
    try_delete(rt, c, 2, 1, 145)?;
    println!(rt)
}

// The server of two lines with one item.
fn server_of_two() -> Server {
    let mut s = Server::empty();
    let _ = s.open(2, &[1u8, 2], &[10u32]);
    s
}

// What the server answers to a message when it is left as it was.
fn try_take(rt: &impl Print, s: &Server, bytes: &[u8]) -> io::Result<()> {
    let mut t = *s;
    answer(rt, t.take(bytes))
}

// Going up, the maker is the message's own line and number. The kind without an origin is no message any more.
fn makers_up(rt: &impl Print) -> io::Result<()> {
    print!(rt; "makers up")?;
    let s = server_of_two();
    try_take(rt, &s, &[7u8, 1, 0, 0, 1, 0, 0, 0, 1, 2, 0, 1])?;
    try_take(rt, &s, &[7u8, 1, 0, 0, 1, 0, 0, 0, 1, 1, 0, 2])?;
    try_take(rt, &s, &[2u8, 1, 0, 0, 1, 0, 0, 0, 1])?;
    println!(rt)
}

// Both clients delete the one item. The second delete becomes nothing, and still has its number and its origin.
fn nothing(rt: &impl Print) -> io::Result<()> {
    print!(rt; "nothing")?;
    let mut s = server_of_two();
    answer(rt, s.take(&[7u8, 1, 0, 0, 1, 0, 0, 0, 1, 1, 0, 1]))?;
    let d = s.take(&[7u8, 2, 0, 0, 1, 0, 0, 0, 1, 2, 0, 1]);
    answer(rt, d)?;
    passed(rt, d)?;
    let mut m = [0u8; 17];
    answer(rt, s.send(1, 1, &mut m))?;
    byte(rt, m[0])?;
    byte(rt, m[4])?;
    byte(rt, m[7])?;
    byte(rt, m[9])?;
    println!(rt)
}

// The bits of all words together.
fn gathered(words: &[u32]) -> u32 {
    let mut all = 0u32;
    for word in words {
        all |= *word;
    }
    all
}

// The same of the numbers of all lines.
fn gathered_lines(k: Counts) -> Line {
    let mut made = 0u16;
    let mut taken = 0u16;
    let mut acked = 0u16;
    let mut inserts = 0u16;
    for v in k.lines {
        made |= v.made;
        taken |= v.taken;
        acked |= v.acked;
        inserts |= v.inserts;
    }
    Line {
        made,
        taken,
        acked,
        inserts,
    }
}

// A refused opening leaves an end that is all zeros.
fn refused_client(rt: &impl Print) -> io::Result<()> {
    print!(rt; "refused client")?;
    let mut c = Client::empty();
    answer(rt, c.open(9, 1, &[1u8, 2], &[10u32, 20]))?;
    item(rt, gathered(&c.words))?;
    let k = c.counts;
    let v = k.own;
    count(rt, v.made | v.taken | v.acked | v.inserts | k.len)?;
    byte(rt, k.n | k.line)?;
    println!(rt)
}

fn refused_server(rt: &impl Print) -> io::Result<()> {
    print!(rt; "refused server")?;
    let mut s = Server::empty();
    answer(rt, s.open(9, &[1u8, 2], &[10u32, 20]))?;
    item(rt, gathered(&s.words))?;
    let k = s.counts;
    let v = gathered_lines(k);
    count(rt, v.made | v.taken)?;
    count(rt, v.acked | v.inserts)?;
    count(rt, k.initial | k.len)?;
    byte(rt, k.n)?;
    println!(rt)
}

fn main(rt: HostRuntime) -> io::Result<()> {
    let mut opened = Client::empty();
    let _ = opened.open(2, 1, &[1u8, 2], &[10u32]);
    let mut c = opened;
    let _ = insert(&mut c, 1, 20);
    let _ = insert(&mut c, 2, 30);
    seen(&rt, c)?;
    refused(&rt, &c)?;
    overtaken(&rt, c)?;
    let mut e = opened;
    let _ = insert(&mut e, 2, 20);
    let _ = insert(&mut e, 3, 30);
    kept(&rt, e)?;
    origins(&rt, e)?;
    makers(&rt, &e)?;
    makers_up(&rt)?;
    nothing(&rt)?;
    refused_client(&rt)?;
    refused_server(&rt)
}
