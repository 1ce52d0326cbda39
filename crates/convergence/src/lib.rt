// The methods of both ends, each with the call of the sheet `built` that it is for its contract: what is claimed of `built` is claimed of the
// methods.
// Kept as a function for each method of each end: a trait over both ends would have all these methods too, and its laws would be harder to read.
#![tactic(auto)]

ghost use Rattle.std.specs.Prelude.{◌≡◌};
ghost use Rattle.line.specs.Sending.{answered};
ghost use Rattle.line.specs.Taking.{answer_of, packet_of, done_of};
ghost use Rattle.convergence.specs.Built.{of_client, of_server, from_client, from_server, built};

use client::Client;
use line::taking::{Report, Stopped};
use refusal::Refusal;
use server::Server;

// ---- a client

pub fn client_open(
    c: &mut Client,
    n: u8,
    line: u8,
    ranks: &[u8],
    items: &[u32],
) -> Result<(), Refusal>
    ensures { from_client (done_of result c.new) ≡ built.open_client n line ranks.now items.now }
{
    c.open(n, line, ranks, items)
}

pub fn client_insert(c: &mut Client, p: u16, x: u32) -> Result<(), Refusal>
    ensures { from_client (done_of result c.new) ≡ built.insert (of_client c.old) p x }
{
    c.insert(p, x)
}

pub fn client_delete(c: &mut Client, p: u16) -> Result<(), Refusal>
    ensures { from_client (done_of result c.new) ≡ built.delete (of_client c.old) p }
{
    c.delete(p)
}

pub fn client_take_back(c: &mut Client) -> Result<(), Refusal>
    ensures { from_client (done_of result c.new) ≡ built.take_back (of_client c.old) }
{
    c.take_back()
}

pub fn client_send(c: &Client, line: u8, number: u16, out: &mut [u8]) -> Result<usize, Refusal>
    ensures { answered result out.new ≡ built.send (of_client c.now) line number out.old }
{
    c.send(line, number, out)
}

pub fn client_tell(c: &Client, line: u8, out: &mut [u8]) -> Result<usize, Refusal>
    ensures { answered result out.new ≡ built.tell (of_client c.now) line out.old }
{
    c.tell(line, out)
}

pub fn client_take(c: &mut Client, bytes: &[u8]) -> Result<Report, Refusal>
    ensures { from_client (answer_of result c.new) ≡ built.take (of_client c.old) bytes.now }
{
    c.take(bytes)
}

pub fn client_pack(c: &Client, line: u8, out: &mut [u8], offset: usize) -> Result<usize, Refusal>
    ensures { answered result out.new ≡ built.pack (of_client c.now) line out.old offset }
{
    c.pack(line, out, offset)
}

pub fn client_take_packet(c: &mut Client, packet: &[u8]) -> Result<u16, Stopped>
    ensures { from_client (packet_of result c.new) ≡ built.take_packet (of_client c.old) packet.now }
{
    c.take_packet(packet)
}

// ---- the server

pub fn server_open(s: &mut Server, n: u8, ranks: &[u8], items: &[u32]) -> Result<(), Refusal>
    ensures { from_server (done_of result s.new) ≡ built.open_server n ranks.now items.now }
{
    s.open(n, ranks, items)
}

pub fn server_send(s: &Server, line: u8, number: u16, out: &mut [u8]) -> Result<usize, Refusal>
    ensures { answered result out.new ≡ built.send (of_server s.now) line number out.old }
{
    s.send(line, number, out)
}

pub fn server_tell(s: &Server, line: u8, out: &mut [u8]) -> Result<usize, Refusal>
    ensures { answered result out.new ≡ built.tell (of_server s.now) line out.old }
{
    s.tell(line, out)
}

pub fn server_take(s: &mut Server, bytes: &[u8]) -> Result<Report, Refusal>
    ensures { from_server (answer_of result s.new) ≡ built.take (of_server s.old) bytes.now }
{
    s.take(bytes)
}

pub fn server_pack(s: &Server, line: u8, out: &mut [u8], offset: usize) -> Result<usize, Refusal>
    ensures { answered result out.new ≡ built.pack (of_server s.now) line out.old offset }
{
    s.pack(line, out, offset)
}

pub fn server_take_packet(s: &mut Server, packet: &[u8]) -> Result<u16, Stopped>
    ensures { from_server (packet_of result s.new) ≡ built.take_packet (of_server s.old) packet.now }
{
    s.take_packet(packet)
}
