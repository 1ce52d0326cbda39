// The calls on packets (02: N2) of both ends over lent bytes: question 18, the end read, the call on it, and if a message was taken the end
// written back. What each of them answers goes to C as one number: of one message of a packet it is the answer of its taking, and how many
// bytes the message has.
#![tactic(auto)]

pub mod client_end;
pub mod server_end;

ghost use Rattle.std.specs.Prelude.{◌≡◌, ◌%◌, drop};
ghost use Rattle.model.specs.Packets.{next_size};
ghost use Rattle.c_packet.specs.Calls.{taken_by, reported};

use line::taking::{Report, Stopped};
use refusal::Refusal;

// One message of a packet was taken: its report, and how many bytes it has.
#[derive(Clone, Copy)]
pub struct Taken {
    pub report: Report,
    pub bytes: u8,
}

// How many bytes the message of a packet has that begins at an offset. One that is taken has at most 17, and its length fits a byte.
fn size_at(packet: &[u8], offset: usize) -> u8
    ensures { result ≡ next_size (drop offset packet.now) % 256 }
{
    let start = wire_packet::message_start(packet, offset);
    let end = wire_packet::message_end(packet, start);
    ((end - start) % 256) as u8
}

// How many messages of a packet were taken, beside a refusal too.
fn taken_by(r: Result<u16, Stopped>) -> u16
    ensures { result ≡ taken_by r }
{
    match r {
        Ok(messages) => messages,
        Err(stopped) => stopped.taken,
    }
}

// What an exported call returns of one message: its report, and above it the bytes of the message.
pub fn reported(r: Result<Taken, Refusal>) -> u64
    ensures { result ≡ reported r }
{
    match r {
        Ok(t) => c_layout::reported(Ok(t.report)) + 72057594037927936 * t.bytes as u64,
        Err(refusal) => c_layout::done(Err(refusal)),
    }
}
