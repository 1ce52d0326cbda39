// A client's packets (02: N2): its pending edits in one packet, and the messages of a packet taken in order.
ghost use Rattle.std.specs.Prelude.{◌-◌, ◌≤◌, ◌≡◌, length};
ghost use Rattle.limits.specs.Limits.{max_packet};
ghost use Rattle.line.specs.Sending.{answered};
ghost use Rattle.line.specs.Taking.{answer_of, packet_of};
ghost use Rattle.client.specs.View.{Sound};
ghost use Rattle.client.specs.Packets.{packed_edits, OwnOrigins, messages_taken, packet_taken, taken_at};

use crate::Client;
use line::taking::{Report, Stopped};
use list::Origin;
use refusal::Refusal;

// Writes the origins of the pending edits, a word each: the client's line, and the numbers behind those acknowledged.
fn fill_origins(line: u8, acked: u16, made: u16, origins: &mut [u32])
    requires { made - acked ≤ length origins.old }
    ensures { OwnOrigins line acked made origins.new }
{
    for before in acked..made {
        let number = before + 1;
        origins[(before - acked) as usize] = list::word_of(Origin { line, number });
    }
}

impl Client {
    // Writes the pending edits from an offset of the buffer on, in number order, as many as fit before its end, unless a question says no.
    pub fn pack(&self, line: u8, out: &mut [u8], offset: usize) -> Result<usize, Refusal>
        ensures { answered result out.new ≡ packed_edits self.now line out.old offset }
    {
        self.check_sound()?;
        let k = &self.counts;
        if line != k.line {
            return Err(Refusal::WrongLine);
        }
        let mut origins = [0u32; Client::PENDING];
        fill_origins(line, k.own.acked, k.own.made, &mut origins);
        line::packing::pack(line, 0, k.own, self.slots(), &origins, out, offset)
    }

    // Takes the messages of a packet up to the first that is refused, and gives how many were taken. Question 2 is asked once, before 15.
    pub fn take_packet(&mut self, packet: &[u8]) -> Result<u16, Stopped>
        ensures { packet_of result self.new ≡ packet_taken self.old packet.now }
    {
        self.check_sound()?;
        if !wire_packet::has_length(packet) {
            return Err(Stopped::from(Refusal::Length));
        }
        self.take_all(packet)
    }

    // Takes the messages one after another, up to the first that is refused, at a client that question 2 found sound. Taking keeps it sound.
    fn take_all(&mut self, packet: &[u8]) -> Result<u16, Stopped>
        requires { Sound self.old × (length packet.now ≤ max_packet) }
        ensures { packet_of result self.new ≡ messages_taken self.old packet.now }
    {
        // Kept as a loop: a message's own kind says where the next begins, and the first refusal ends it.
        let mut at: usize = 0;
        let mut taken: u16 = 0;
        while at < packet.len() {
            let end = wire_packet::message_end(packet, at);
            if let Err(refusal) = self.take_sound(&packet[at..end]) {
                return Err(Stopped { refusal, taken });
            }
            taken += 1;
            at = end;
        }
        Ok(taken)
    }

    // Takes the one message of a packet that begins at a place. At the packet's end and past it there are no bytes, which are no message.
    pub fn take_at(&mut self, packet: &[u8], at: usize) -> Result<Report, Refusal>
        ensures { answer_of result self.new ≡ taken_at self.old packet.now at }
    {
        self.check_sound()?;
        if !wire_packet::has_length(packet) {
            return Err(Refusal::Length);
        }
        let start = wire_packet::message_start(packet, at);
        let end = wire_packet::message_end(packet, start);
        self.take_sound(&packet[start..end])
    }
}
