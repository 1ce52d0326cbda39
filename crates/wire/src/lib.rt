// Messages between a client and the server. specs/Bytes.antt says what their bytes are.
#![tactic(auto)]

pub mod reading;
pub mod writing;

ghost use Rattle.std.specs.Prelude.{◌≡◌};
ghost use Rattle.ot.specs.Edit.{edit};
ghost use Rattle.wire.specs.Message.{message_of};

use list::Origin;
use ot::Form;

// What every edit message has beside its edit. The origin (02: N4) is the line of the client that made the edit, and its number there.
#[derive(Clone, Copy)]
pub struct Header {
    pub line: u8,
    // 0 goes up to the server, 1 down to a client. Kept as a number: `of_edit`, `writing::size` and `writing::write` take every byte here.
    pub direction: u8,
    pub number: u16,
    pub seen: u16,
    pub origin: Origin,
}

// A message, a variant for each kind.
#[derive(Clone, Copy)]
pub enum Message {
    // position, item, priority
    Insert(Header, u16, u32, u8),
    // position
    Delete(Header, u16),
    Nothing(Header),
    // line, direction, seen
    Ack(u8, u8, u16),
}

// The message of an edit, of form f and item x.
pub fn of_edit(h: Header, f: Form, x: u32) -> Message
    ensures { result ≡ message_of h (edit f x) }
{
    match f {
        Form::Nothing => Message::Nothing(h),
        Form::Delete(p) => Message::Delete(h, p),
        Form::Insert(p, r) => Message::Insert(h, p, x, r),
    }
}
