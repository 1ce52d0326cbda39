// The server's packets.
ghost use Rattle.std.specs.Prelude.{◌≡◌};
ghost use Rattle.c_layout.specs.Called.{written, counted};
ghost use Rattle.c_packet.specs.Calls.{returned, reported, server_packed_in, server_packet_in, server_taken_at_in};

use crate::{Taken, size_at, taken_by};
use c_server::layout;
use line::taking::Stopped;
use refusal::Refusal;
use server::Server;

// Writes the pending edits of a line into `out` from an offset on, in number order, as many as fit before its end. Answers how many
// bytes were written. Refusals: 18 2 4 14.
pub fn pack(end: &[u8], line: u8, out: &mut [u8], offset: usize) -> Result<u16, Refusal>
    ensures { returned (written result) out.new ≡ server_packed_in end.now line out.old offset }
{
    layout::check_length(end)?;
    let mut server = Server::empty();
    layout::read(end, &mut server);
    let bytes = server.pack(line, out, offset)?;
    Ok(bytes as u16)
}

// Takes the messages of a packet from a client, up to the first that is refused. If one was taken, the server that it left is written, beside a
// refusal too. Answers how many were taken. Refusals: 18 2 15, and those of one message, 3 4 5 6 7 8 9 10 12.
pub fn take_packet(end: &mut [u8], packet: &[u8]) -> Result<u16, Stopped>
    ensures { returned (counted result) end.new ≡ server_packet_in end.old packet.now }
{
    layout::check_length(end)?;
    let mut server = Server::empty();
    layout::read(end, &mut server);
    let taken = server.take_packet(packet);
    if taken_by(taken) != 0 {
        layout::write(end, &server);
    }
    taken
}

// Takes the one message of a packet that begins at an offset. The next one begins as many bytes further on as are answered.
// Refusals: 18 2 15 3 4 5 6 7 8 9 10 12.
pub fn take_at(end: &mut [u8], packet: &[u8], offset: usize) -> Result<Taken, Refusal>
    ensures { returned (reported result) end.new ≡ server_taken_at_in end.old packet.now offset }
{
    layout::check_length(end)?;
    let mut server = Server::empty();
    layout::read(end, &mut server);
    let report = server.take_at(packet, offset)?;
    layout::write(end, &server);
    let bytes = size_at(packet, offset);
    Ok(Taken { report, bytes })
}
