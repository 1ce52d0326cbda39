// For benchmarks alone: methods called again and again, each time on a copy of the same end. The loops stand inside the library, so that what is
// timed is the method with the copy of its end. Each function answers what one call of the method answers.
#![tactic(auto)]

ghost use Rattle.std.specs.Prelude.{◌≡◌};
ghost use Rattle.line.specs.Taking.{done_of};
ghost use Rattle.client.specs.Answers as client;
ghost use Rattle.server.specs.Answers as server;
ghost use Rattle.test_timing.specs.Opened.{client_with, server_with, client_answered, server_answered};

use c_layout::{done, reported};
use client::Client;
use refusal::Refusal;
use server::Server;

// Client 1 of 2, opened with line numbers as ranks and so many items; more than opening lets through leave an end that is all zeros.
fn client_with(count: u8) -> Client
    ensures { result ≡ client_with count }
{
    let items = [0u32; 256];
    let n = count as usize;
    let mut client = Client::empty();
    let _ = client.open(2, 1, &[1u8, 2], &items[..n]);
    client
}

fn server_with(count: u8) -> Server
    ensures { result ≡ server_with count }
{
    let items = [0u32; 256];
    let n = count as usize;
    let mut server = Server::empty();
    let _ = server.open(2, &[1u8, 2], &items[..n]);
    server
}

// An insert that is not inlined: inside its loop the compiler saw that each gives the same, and made one for all of them.
#[inline(never)]
fn insert_apart(end: &mut Client, position: u16, item: u32) -> Result<(), Refusal>
    ensures { done_of result end.new ≡ client.inserted end.old position item }
{
    end.insert(position, item)
}

// One call of each method that is timed, on a copy of the end. The end is lent: by value it would be copied twice.
fn insert(c: &Client, position: u16, item: u32) -> u64
    ensures { result ≡ client_answered (client.inserted c.now position item) }
{
    let mut end = *c;
    done(insert_apart(&mut end, position, item))
}

fn client_take(c: &Client, message: &[u8]) -> u64
    ensures { result ≡ client_answered (client.taken c.now message.now) }
{
    let mut end = *c;
    reported(end.take(message))
}

fn server_take(s: &Server, message: &[u8]) -> u64
    ensures { result ≡ server_answered (server.taken s.now message.now) }
{
    let mut end = *s;
    reported(end.take(message))
}

// What the last of so many calls answers, at least one. Each answers the same, but none is left out.
fn repeated<F: Fn() -> u64>(call: F, times: u32) -> u64
    requires { F.IsAlwaysCallable call }
    ensures { F.post call result }
{
    let mut answer = call();
    for _ in 1..times {
        answer = call();
    }
    answer
}

#[unsafe(no_mangle)]
pub extern "C" fn lub_time_client_insert(count: u8, position: u16, item: u32, times: u32) -> u64
    ensures { result ≡ client_answered (client.inserted (client_with count) position item) }
{
    let c = client_with(count);
    repeated(|| insert(&c, position, item), times)
}

#[unsafe(no_mangle)]
pub extern "C" fn lub_time_client_take(count: u8, message: &[u8], times: u32) -> u64
    ensures { result ≡ client_answered (client.taken (client_with count) message.now) }
{
    let c = client_with(count);
    repeated(|| client_take(&c, message), times)
}

#[unsafe(no_mangle)]
pub extern "C" fn lub_time_server_take(count: u8, message: &[u8], times: u32) -> u64
    ensures { result ≡ server_answered (server.taken (server_with count) message.now) }
{
    let s = server_with(count);
    repeated(|| server_take(&s, message), times)
}
