// The run program over a text: reads lines, makes the calls that they name on a server and its clients, and prints.
#![tactic(auto)]

ghost use Rattle.std.specs.Prelude.{◌≡◌, map, ◌≤◌, drop};
ghost use Rattle.refusal.specs.Number.{refused_by};
ghost use Rattle.limits.specs.Limits.{max_lines};
ghost use Rattle.client.specs.View.{view};
ghost use Rattle.sheet_print.specs.Sink.{sink, puts as Sink·puts, Printed};
ghost use Rattle.sheet_text.specs.Text.{lines_of};
ghost use Rattle.sheet_text.specs.Opening.{held};
ghost use Rattle.sheet_ends.specs.Ends.{view_ends, Whole};
ghost use Rattle.sheet_run.specs.Output.{client_lists, lists as Output·lists, ran, started as Output·started, output};
ghost use Rattle.sheet_run.specs.Shown.{Shown};

use client::Client;
use refusal::Refusal;
use server::Server;
use sheet_ends::{Ends, line_ranks};
use sheet_print::{client_list, puts, reply, server_list, unknown};
use sheet_text::first::{First, read_first};
use sheet_text::{end, line_at};

// The lists of the clients, in line order.
fn client_lists(out: &mut [u8], at: usize, clients: &[Client]) -> usize
    requires { Shown clients.now }
    ensures { sink out.new result ≡ Sink·puts (client_lists 1 (map view clients.now)) (sink out.old at) }
{
    let mut to = at;
    for (i, c) in clients.iter().enumerate() {
        let len = c.counts.len as usize;
        to = client_list(out, to, (i + 1) as u8, &c.words[..len]);
    }
    to
}

// The server's list, and then those of the clients.
fn lists(out: &mut [u8], at: usize, ends: &Ends) -> usize
    requires { Whole ends.now }
    ensures { sink out.new result ≡ Sink·puts (Output·lists (view_ends ends.now)) (sink out.old at) }
{
    let len = ends.server.counts.len as usize;
    let to = server_list(out, at, &ends.server.words[..len]);
    let n = ends.server.counts.n as usize;
    client_lists(out, to, &ends.clients[..n])
}

// What is printed of an answer: the refusal's number, or 0.
fn answer(done: Result<(), Refusal>) -> u8
    ensures { result ≡ refused_by done }
{
    match done {
        Ok(()) => 0,
        Err(r) => r.number(),
    }
}

// The lines from a place of the input on, and the lists. Each line changes the ends in place.
// Kept as a while loop: the place moves on by a line's length, it is no counted index.
fn commands(input: &[u8], mut i: usize, out: &mut [u8], mut at: usize, ends: &mut Ends) -> usize
    requires { Whole ends.old }
    ensures { sink out.new result ≡ Sink·puts (ran (view_ends ends.old) (lines_of (drop i input.now))) (sink out.old at) }
{
    while i < input.len() {
        let line = line_at(input, i, ends.server.counts.n);
        i = line.after;
        let Some(order) = line.order else {
            at = unknown(out, at);
            continue;
        };
        let done = ends.turn(order);
        at = reply(out, at, answer(done));
    }
    lists(out, at, ends)
}

// How many ranks an opening of n lines is lent: one for each line. Of n past eight, which it refuses before it looks at them, eight.
fn lent_ranks(n: u8) -> usize
    ensures { (result ≤ max_lines) × (n ≤ max_lines → result ≡ n) }
{
    (n as usize).min(Server::LINES)
}

// What the first line opens, with line numbers as ranks, and the lines after it.
fn started(input: &[u8], from: usize, out: &mut [u8], first: Option<First>) -> usize
    ensures { sink out.new result ≡ Sink·puts (Output·started (held first) (lines_of (drop from input.now))) (sink out.old 0) }
{
    let Some(f) = first else {
        return unknown(out, 0);
    };
    let items = f.items.as_slice();
    let all = line_ranks();
    let lent = lent_ranks(f.n);
    let mut ends = Ends::empty();
    if let Err(r) = ends.open(f.n, &all[..lent], items) {
        return reply(out, 0, r.number());
    }
    let to = reply(out, 0, 0);
    commands(input, from, out, to, &mut ends)
}

// What the program prints for its input, into a lent buffer.
pub fn run(input: &[u8], out: &mut [u8]) -> usize
    ensures { Printed (output input.now) out.old out.new result }
{
    if 65536 < input.len() {
        return puts(out, 0, b"long\n");
    }
    let e = end(input, b'\n');
    let f = read_first(&input[..e]);
    started(input, e + 1, out, f)
}
