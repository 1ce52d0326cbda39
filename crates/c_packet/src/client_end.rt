// A client's packets.
ghost use Rattle.std.specs.Prelude.{◌≡◌};
ghost use Rattle.c_layout.specs.Called.{written, counted};
ghost use Rattle.c_packet.specs.Calls.{returned, reported, client_packed_in, client_packet_in, client_taken_at_in};

use crate::{Taken, size_at, taken_by};
use c_client::layout;
use line::taking::Stopped;
use refusal::Refusal;

// Writes the client's pending edits into `out` from an offset on, in number order, as many as fit before its end. Answers how many
// bytes were written. Refusals: 18 2 4 14.
pub fn pack(end: &[u8], line: u8, out: &mut [u8], offset: usize) -> Result<u16, Refusal>
    ensures { returned (written result) out.new ≡ client_packed_in end.now line out.old offset }
{
    layout::check_length(end)?;
    let client = layout::read(end);
    let bytes = client.pack(line, out, offset)?;
    Ok(bytes as u16)
}

// Takes the messages of a packet from the server, up to the first that is refused. If one was taken, the client that it left is written, beside a
// refusal too. Answers how many were taken. Refusals: 18 2 15, and those of one message, 3 4 5 6 7 8 9.
pub fn take_packet(end: &mut [u8], packet: &[u8]) -> Result<u16, Stopped>
    ensures { returned (counted result) end.new ≡ client_packet_in end.old packet.now }
{
    layout::check_length(end)?;
    let mut client = layout::read(end);
    let taken = client.take_packet(packet);
    if taken_by(taken) != 0 {
        layout::write(end, &client);
    }
    taken
}

// Takes the one message of a packet that begins at an offset. The next one begins as many bytes further on as are answered.
// Refusals: 18 2 15 3 4 5 6 7 8 9.
pub fn take_at(end: &mut [u8], packet: &[u8], offset: usize) -> Result<Taken, Refusal>
    ensures { returned (reported result) end.new ≡ client_taken_at_in end.old packet.now offset }
{
    layout::check_length(end)?;
    let mut client = layout::read(end);
    let report = client.take_at(packet, offset)?;
    layout::write(end, &client);
    let bytes = size_at(packet, offset);
    Ok(Taken { report, bytes })
}
