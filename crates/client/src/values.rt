// The calls by value: the client goes in and comes back beside the answer. Each is the call in place on its own copy.
// Kept beside the calls in place: the rules ask that an end goes into each call and comes back from it.
ghost use Rattle.std.specs.Prelude.{◌≡◌};
ghost use Rattle.line.specs.Taking.{answer_of, done_of, packet_of};
ghost use Rattle.client.specs.Answers.{opened, inserted, deleted, taken_back, taken};
ghost use Rattle.client.specs.Packets.{packet_taken};

use crate::Client;
use line::taking::{Report, Stopped};
use refusal::Refusal;

impl Client {
    // A client of line `line` of n, with the ranks of all lines and the initial list. Refused, it is all zeros.
    pub fn opened(n: u8, line: u8, ranks: &[u8], items: &[u32]) -> (Result<(), Refusal>, Client)
        ensures { done_of result.0 result.1 ≡ opened n line ranks.now items.now }
    {
        let mut end = Client::empty();
        let answer = end.open(n, line, ranks, items);
        (answer, end)
    }

    pub fn inserted(self, p: u16, x: u32) -> (Result<(), Refusal>, Client)
        ensures { done_of result.0 result.1 ≡ inserted self p x }
    {
        let mut end = self;
        let answer = end.insert(p, x);
        (answer, end)
    }

    pub fn deleted(self, p: u16) -> (Result<(), Refusal>, Client)
        ensures { done_of result.0 result.1 ≡ deleted self p }
    {
        let mut end = self;
        let answer = end.delete(p);
        (answer, end)
    }

    pub fn taken_back(self) -> (Result<(), Refusal>, Client)
        ensures { done_of result.0 result.1 ≡ taken_back self }
    {
        let mut end = self;
        let answer = end.take_back();
        (answer, end)
    }

    pub fn taken(self, bytes: &[u8]) -> (Result<Report, Refusal>, Client)
        ensures { answer_of result.0 result.1 ≡ taken self bytes.now }
    {
        let mut end = self;
        let answer = end.take(bytes);
        (answer, end)
    }

    pub fn packet_taken(self, packet: &[u8]) -> (Result<u16, Stopped>, Client)
        ensures { packet_of result.0 result.1 ≡ packet_taken self packet.now }
    {
        let mut end = self;
        let answer = end.take_packet(packet);
        (answer, end)
    }
}
