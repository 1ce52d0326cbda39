// The message that some bytes are.
ghost use Rattle.std.specs.Prelude.{◌≡◌, ◌<◌, get_or};
ghost use Rattle.limits.specs.Limits.{max_lines, max_items};
ghost use Rattle.wire.specs.Message.{between, origin_in_range, header_in_range, in_range};
ghost use Rattle.wire.specs.Bytes.{two_at, four_at, header_at, fields_of, parsed};
ghost use Rattle.wire.specs.Size.{size_of};

use crate::{Header, Message};
use list::Origin;

// ---- the ranges of the fields

// Can it be the number of a client's line, or its rank?
fn is_line(n: u8) -> bool
    ensures { result ≡ between 1 max_lines n }
{
    (1..=limits::LINES).contains(&n)
}

fn is_position(p: u16) -> bool
    ensures { result ≡ between 1 max_items p }
{
    (1..=limits::ITEMS).contains(&(p as usize))
}

fn origin_in_range(o: Origin) -> bool
    ensures { result ≡ origin_in_range o }
{
    is_line(o.line) && (1..=limits::EDITS).contains(&o.number)
}

impl Header {
    fn is_in_range(self) -> bool
        ensures { result ≡ header_in_range self }
    {
        let counts = match self.direction {
            0 => (1..=limits::EDITS).contains(&self.number) && self.seen <= limits::OTHERS,
            1 => (1..=limits::OTHERS).contains(&self.number) && self.seen <= limits::EDITS,
            _ => false,
        };
        is_line(self.line) && counts && origin_in_range(self.origin)
    }
}

impl Message {
    fn is_in_range(self) -> bool
        ensures { result ≡ in_range self }
    {
        match self {
            Message::Insert(h, p, _, r) => h.is_in_range() && is_position(p) && is_line(r),
            Message::Delete(h, p) => h.is_in_range() && is_position(p),
            Message::Nothing(h) => h.is_in_range(),
            Message::Ack(line, 0, seen) => is_line(line) && seen <= limits::OTHERS,
            Message::Ack(line, 1, seen) => is_line(line) && seen <= limits::EDITS,
            Message::Ack(_, _, _) => false,
        }
    }
}

// ---- reading

// The byte at i, 0 past the end: so that no reader below has to show that its index is within the bytes.
fn byte_at(s: &[u8], i: usize) -> u8
    ensures { result ≡ get_or s.now i 0 }
{
    s.get(i).copied().unwrap_or(0)
}

// Two bytes from i as one number, high byte first.
fn two_at(s: &[u8], i: usize) -> u16
    requires { i < 16 }
    ensures { result ≡ two_at s.now i }
{
    u16::from_be_bytes([byte_at(s, i), byte_at(s, i + 1)])
}

fn four_at(s: &[u8], i: usize) -> u32
    requires { i < 14 }
    ensures { result ≡ four_at s.now i }
{
    u32::from_be_bytes([
        byte_at(s, i),
        byte_at(s, i + 1),
        byte_at(s, i + 2),
        byte_at(s, i + 3),
    ])
}

// The header of an edit message whose origin stands from i on.
fn header_at(s: &[u8], i: usize) -> Header
    requires { i < 15 }
    ensures { result ≡ header_at s.now i }
{
    let origin = Origin {
        line: byte_at(s, i),
        number: two_at(s, i + 1),
    };
    Header {
        line: byte_at(s, 1),
        direction: byte_at(s, 2),
        number: two_at(s, 3),
        seen: two_at(s, 5),
        origin,
    }
}

// What the kind byte alone decides: the length of the message, or none for a byte that is no kind. The kind is kept as a byte: callers have
// any byte here, and the enum of the kinds is `Message`.
pub fn size_of_kind(kind: u8) -> Option<usize>
    ensures { result ≡ size_of kind }
{
    match kind {
        4 => Some(5),
        5 => Some(17),
        7 => Some(12),
        8 => Some(10),
        _ => None,
    }
}

// The fields at their places, whether or not they are in range.
fn fields(kind: u8, s: &[u8]) -> Message
    ensures { result ≡ fields_of kind s.now }
{
    match kind {
        5 => Message::Insert(
            header_at(s, 14),
            two_at(s, 7),
            four_at(s, 9),
            byte_at(s, 13),
        ),
        7 => Message::Delete(header_at(s, 9), two_at(s, 7)),
        8 => Message::Nothing(header_at(s, 7)),
        _ => Message::Ack(byte_at(s, 1), byte_at(s, 2), two_at(s, 3)),
    }
}

// Exactly one message with every field in its range.
pub fn parse(s: &[u8]) -> Option<Message>
    ensures { result ≡ parsed s.now }
{
    let kind = *s.first()?;
    if s.len() != size_of_kind(kind)? {
        return None;
    }
    let message = fields(kind, s);
    message.is_in_range().then_some(message)
}
