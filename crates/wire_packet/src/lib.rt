// A packet is messages end to end: how long it may be, and where each of them ends.
#![tactic(auto)]

ghost use Rattle.std.specs.Prelude.{◌≡◌, length};
ghost use Rattle.limits.specs.Limits.{max_packet};
ghost use Rattle.model.specs.Questions.{between};
ghost use Rattle.wire_packet.specs.Packet.{message_start, message_end};

// Has a packet 1 to 1,400 bytes? That is question 15.
pub fn has_length(packet: &[u8]) -> bool
    ensures { result ≡ between 1 max_packet (length packet.now) }
{
    (1..=limits::PACKET).contains(&packet.len())
}

// Where the message ends that begins at `at`: as many bytes on as its kind says. A byte that is no kind, and a message that is cut off,
// take the rest of the packet. Past the end no message begins, and the end itself is the answer.
pub fn message_end(bytes: &[u8], at: usize) -> usize
    ensures { result ≡ message_end bytes.now at }
{
    let Some(kind) = bytes.get(at) else {
        return bytes.len();
    };
    let left = bytes.len() - at;
    at + wire::reading::size_of_kind(*kind).unwrap_or(left).min(left)
}

// A packet and how far it has been read. Kept beside `message_end`: docs/PROMISES.md names both.
#[derive(Drop)]
pub struct Packet<'a> {
    pub bytes: &'a [u8],
    pub read: usize,
}

impl<'a> Packet<'a> {
    pub fn new(bytes: &'a [u8], read: usize) -> Packet<'a>
        ensures { (result.bytes ≡ bytes.entry) × (result.read ≡ read) }
    {
        Packet { bytes, read }
    }

    // Where the first message ends that has not been read.
    pub fn end(self) -> usize
        ensures { result ≡ message_end self.entry.bytes.now self.entry.read }
    {
        message_end(self.bytes, self.read)
    }
}

// Where a message begins that is named by its place: past the end of the packet no bytes are left, and it begins and ends there.
pub fn message_start(bytes: &[u8], at: usize) -> usize
    ensures { result ≡ message_start bytes.now at }
{
    at.min(bytes.len())
}
