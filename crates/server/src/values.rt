// The calls by value: the server goes in and comes back beside the answer. Each is the call in place on its own copy.
// Kept beside the calls in place: the rules ask that an end goes into each call and comes back from it.
ghost use Rattle.std.specs.Prelude.{◌≡◌};
ghost use Rattle.line.specs.Taking.{answer_of, done_of, packet_of};
ghost use Rattle.server.specs.Answers.{opened, taken};
ghost use Rattle.server.specs.Packets.{packet_taken};

use crate::Server;
use line::taking::{Report, Stopped};
use refusal::Refusal;

impl Server {
    // A server of n lines, with the ranks of all lines and the initial list. Refused, it is all zeros.
    pub fn opened(n: u8, ranks: &[u8], items: &[u32]) -> (Result<(), Refusal>, Server)
        ensures { done_of result.0 result.1 ≡ opened n ranks.now items.now }
    {
        let mut end = Server::empty();
        let answer = end.open(n, ranks, items);
        (answer, end)
    }

    pub fn taken(self, bytes: &[u8]) -> (Result<Report, Refusal>, Server)
        ensures { answer_of result.0 result.1 ≡ taken self bytes.now }
    {
        let mut end = self;
        let answer = end.take(bytes);
        (answer, end)
    }

    pub fn packet_taken(self, packet: &[u8]) -> (Result<u16, Stopped>, Server)
        ensures { packet_of result.0 result.1 ≡ packet_taken self packet.now }
    {
        let mut end = self;
        let answer = end.take_packet(packet);
        (answer, end)
    }
}
