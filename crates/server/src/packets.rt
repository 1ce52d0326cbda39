// The server's packets (02: N2): the pending edits of a line in one packet, and the messages of a packet taken in order.
ghost use Rattle.std.specs.Prelude.{OnOk, ◌≤◌, ◌≡◌, length};
ghost use Rattle.refusal.specs.Number.{refused_by};
ghost use Rattle.limits.specs.Limits.{max_packet};
ghost use Rattle.model.specs.Questions.{asks};
ghost use Rattle.line.specs.Sending.{answered};
ghost use Rattle.line.specs.Taking.{answer_of, packet_of};
ghost use Rattle.server.specs.View.{Sound};
ghost use Rattle.server.specs.Packets.{packed_edits, messages_taken, packet_taken, packet_asked, taken_at};

use crate::Server;
use line::taking::{Report, Stopped};
use refusal::Refusal;

impl Server {
    // Writes the pending edits of a line from an offset of the buffer on, in number order, as many as fit before its end, unless a question
    // says no. Their origins stand beside them.
    pub fn pack(&self, line: u8, out: &mut [u8], offset: usize) -> Result<usize, Refusal>
        ensures { answered result out.new ≡ packed_edits self.now line out.old offset }
    {
        self.ask_line(line)?;
        let at = (line - 1) as usize;
        let v = self.counts.line_at(at);
        let slots = self.slots_at(at);
        let origins = self.makers_at(at);
        line::packing::pack(line, 1, v, slots, origins, out, offset)
    }

    // Questions 2 and 15.
    fn ask_packet(&self, packet: &[u8]) -> Result<(), Refusal>
        ensures answer { refused_by result ≡ asks (packet_asked self.now packet.now) }
        ensures facts { OnOk result (Sound self.now × (length packet.now ≤ max_packet)) }
    {
        self.check_sound()?;
        if wire_packet::has_length(packet) {
            return Ok(());
        }
        Err(Refusal::Length)
    }

    // Takes the messages one after another, up to the first that is refused. A sound server is sound behind each of them, so that none asks
    // question 2.
    fn take_all(&mut self, packet: &[u8]) -> Result<u16, Stopped>
        requires { Sound self.old × (length packet.now ≤ max_packet) }
        ensures { packet_of result self.new ≡ messages_taken self.old packet.now }
    {
        // Kept as a loop: a message's own kind says where the next begins, and the first refusal ends it.
        let mut at: usize = 0;
        let mut taken: u16 = 0;
        while at < packet.len() {
            let end = wire_packet::message_end(packet, at);
            if let Err(refusal) = self.take_sound(&packet[at..end]) {
                return Err(Stopped { refusal, taken });
            }
            taken += 1;
            at = end;
        }
        Ok(taken)
    }

    // Takes the messages of a packet, up to the first that is refused, and reports how many were taken. Question 2 is asked once, before 15.
    pub fn take_packet(&mut self, packet: &[u8]) -> Result<u16, Stopped>
        ensures { packet_of result self.new ≡ packet_taken self.old packet.now }
    {
        self.ask_packet(packet)?;
        self.take_all(packet)
    }

    // Takes the one message of a packet that begins at a place. At the packet's end and past it there are no bytes, which are no message.
    pub fn take_at(&mut self, packet: &[u8], at: usize) -> Result<Report, Refusal>
        ensures { answer_of result self.new ≡ taken_at self.old packet.now at }
    {
        self.ask_packet(packet)?;
        let start = wire_packet::message_start(packet, at);
        let end = wire_packet::message_end(packet, start);
        self.take_sound(&packet[start..end])
    }
}
