// Sending, which changes no end: the message of a pending edit, and its bytes.
ghost use Rattle.std.specs.Prelude.{◌≡◌};
ghost use Rattle.refusal.specs.Number.{refused_by};
ghost use Rattle.model.specs.Questions.{asks};
ghost use Rattle.model.specs.Line as model;
ghost use Rattle.line.specs.Line.{line_of, Kept};
ghost use Rattle.line.specs.Sending.{answered, number_asked, finished, IsPending};

use crate::Line;
use list::Origin;
use refusal::Refusal;
use wire::{Header, Message};

// Question 13.
pub fn ask_number(v: Line, number: u16) -> Result<(), Refusal>
    ensures { refused_by result ≡ asks (number_asked v number) }
{
    if number <= v.acked {
        return Err(Refusal::NotPending);
    }
    if v.made < number {
        return Err(Refusal::NotPending);
    }
    Ok(())
}

// The message of a pending edit, whose origin the end knows.
pub fn message(
    line: u8,
    direction: u8,
    origin: Origin,
    v: Line,
    words: &[u32],
    number: u16,
) -> Message
    requires { IsPending v number × Kept v words.now }
    ensures { result ≡ model.line_message line direction origin (line_of v words.now) number }
{
    let i = (number - 1 - v.acked) as usize;
    let h = Header {
        line,
        direction,
        number,
        seen: v.taken,
        origin,
    };
    wire::of_edit(h, pending::form_in(words, i), pending::item_in(words, i))
}

// The message goes into the buffer if it fits there: question 14. No byte past it changes, and of a refusal none at all. Answers how many
// bytes were written.
pub fn finish(m: Message, out: &mut [u8]) -> Result<usize, Refusal>
    ensures { answered result out.new ≡ finished m out.old }
{
    let written = wire::writing::write(m, out);
    if written == 0 {
        return Err(Refusal::Room);
    }
    Ok(written)
}
