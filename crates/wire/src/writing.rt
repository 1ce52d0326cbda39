// The bytes of a message, into a buffer that is lent.
ghost use Rattle.std.specs.Prelude.{◌≡◌, length};
ghost use Rattle.wire.specs.Bytes.{header, origin, bytes_of};
ghost use Rattle.wire.specs.Buffer.{Written};

use crate::{Header, Message};
use list::Origin;

// How many bytes a message takes.
pub fn size(m: Message) -> usize
    ensures { result ≡ length (bytes_of m) }
{
    match m {
        Message::Insert(_, _, _, _) => 17,
        Message::Delete(_, _) => 12,
        Message::Nothing(_) => 10,
        Message::Ack(_, _, _) => 5,
    }
}

// ---- the bytes of each kind. Numbers stand high byte first: n1 is the high byte of n, n0 the low one.

fn header_bytes(h: Header) -> [u8; 6]
    ensures { result ≡ header h }
{
    let [n1, n0] = h.number.to_be_bytes();
    let [s1, s0] = h.seen.to_be_bytes();
    [h.line, h.direction, n1, n0, s1, s0]
}

fn origin_bytes(o: Origin) -> [u8; 3]
    ensures { result ≡ origin o }
{
    let [n1, n0] = o.number.to_be_bytes();
    [o.line, n1, n0]
}

fn insert_bytes(h: Header, p: u16, x: u32, r: u8) -> [u8; 17]
    ensures { result ≡ bytes_of (Message.Insert h p x r) }
{
    let [l, d, n1, n0, s1, s0] = header_bytes(h);
    let [p1, p0] = p.to_be_bytes();
    let [x3, x2, x1, x0] = x.to_be_bytes();
    let [m, m1, m0] = origin_bytes(h.origin);
    [
        5, l, d, n1, n0, s1, s0, p1, p0, x3, x2, x1, x0, r, m, m1, m0,
    ]
}

fn delete_bytes(h: Header, p: u16) -> [u8; 12]
    ensures { result ≡ bytes_of (Message.Delete h p) }
{
    let [l, d, n1, n0, s1, s0] = header_bytes(h);
    let [p1, p0] = p.to_be_bytes();
    let [m, m1, m0] = origin_bytes(h.origin);
    [7, l, d, n1, n0, s1, s0, p1, p0, m, m1, m0]
}

fn nothing_bytes(h: Header) -> [u8; 10]
    ensures { result ≡ bytes_of (Message.Nothing h) }
{
    let [l, d, n1, n0, s1, s0] = header_bytes(h);
    let [m, m1, m0] = origin_bytes(h.origin);
    [8, l, d, n1, n0, s1, s0, m, m1, m0]
}

fn ack_bytes(line: u8, direction: u8, seen: u16) -> [u8; 5]
    ensures { result ≡ bytes_of (Message.Ack line direction seen) }
{
    let [s1, s0] = seen.to_be_bytes();
    [4, line, direction, s1, s0]
}

// The bytes of a message into a buffer of just as many.
fn fill(m: Message, out: &mut [u8])
    requires { length out.old ≡ length (bytes_of m) }
    ensures { out.new ≡ bytes_of m }
{
    match m {
        Message::Insert(h, p, x, r) => out.copy_from_slice(&insert_bytes(h, p, x, r)),
        Message::Delete(h, p) => out.copy_from_slice(&delete_bytes(h, p)),
        Message::Nothing(h) => out.copy_from_slice(&nothing_bytes(h)),
        Message::Ack(line, direction, seen) => {
            out.copy_from_slice(&ack_bytes(line, direction, seen))
        }
    }
}

// The message at the front of the buffer, and its length; a buffer that is too short stays as it is, and the answer is 0.
pub fn write(m: Message, out: &mut [u8]) -> usize
    ensures { Written m out.old result out.new }
{
    let n = size(m);
    if out.len() < n {
        return 0;
    }
    fill(m, &mut out[..n]);
    n
}
