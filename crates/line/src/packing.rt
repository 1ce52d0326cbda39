// The pending edits of one line as a packet (02: N2): their messages end to end, in a stretch of a lent buffer.
ghost use Rattle.std.specs.Prelude.{◌≡◌, [], ◌∷◌};
ghost use Rattle.wire.specs.Bytes.{bytes_of};
ghost use Rattle.model.specs.Packets.{packed};
ghost use Rattle.line.specs.Sending.{answered, IsPending};
ghost use Rattle.line.specs.Packet.{Packable, message_at, messages, Filled};

use crate::Line;
use crate::sending::message;
use refusal::Refusal;
use wire::Message;

// The message of a pending edit, with its origin from the words of origins: the first of them is that of the first pending edit.
fn message_at<'a>(
    line: u8,
    direction: u8,
    v: Line,
    words: &'a [u32],
    origins: &'a [u32],
    number: u16,
) -> Message
    requires { Packable v words.now origins.now × IsPending v number }
    ensures { result ≡ message_at line direction v words.now origins.now number }
{
    let i = (number - 1 - v.acked) as usize;
    let origin = list::origin_at(origins[i]);
    message(line, direction, origin, v, words, number)
}

// Writes the message from a place of the buffer on, and gives its length. Where it does not fit before the buffer's end, no byte changes
// and the answer is 0.
fn write_at(m: Message, out: &mut [u8], at: usize) -> usize
    ensures { Filled (bytes_of m ∷ []) at out.old result out.new }
{
    if out.len() < at {
        return 0;
    }
    wire::writing::write(m, &mut out[at..])
}

// Writes the messages of the pending edits from an offset on, up to the first that does not fit, and gives how many bytes these are.
fn fill<'a>(
    line: u8,
    direction: u8,
    v: Line,
    words: &'a [u32],
    origins: &'a [u32],
    out: &mut [u8],
    offset: usize,
) -> usize
    requires { Packable v words.now origins.now }
    ensures { Filled (messages line direction v words.now origins.now) offset out.old result out.new }
{
    let made = v.made;
    let mut number = v.acked;
    let mut at = offset;
    while number < made {
        number += 1;
        let m = message_at(line, direction, v, words, origins, number);
        let n = write_at(m, out, at);
        if n == 0 {
            return at - offset;
        }
        at += n;
    }
    at - offset
}

// Writes a line's pending edits in number order from an offset on, up to the first that does not fit before the buffer's end. No byte
// outside that stretch changes. Nothing pending writes nothing, at any offset; where the first does not fit, the answer is 14.
pub fn pack<'a>(
    line: u8,
    direction: u8,
    v: Line,
    words: &'a [u32],
    origins: &'a [u32],
    out: &mut [u8],
    offset: usize,
) -> Result<usize, Refusal>
    requires { Packable v words.now origins.now }
    ensures { answered result out.new ≡ packed [] (messages line direction v words.now origins.now) offset out.old }
{
    if v.made <= v.acked {
        return Ok(0);
    }
    let written = fill(line, direction, v, words, origins, out, offset);
    if written == 0 {
        return Err(Refusal::Room);
    }
    Ok(written)
}
