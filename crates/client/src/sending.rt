// Sending, which changes no end: a pending edit in its present form, or an acknowledgement of what was taken.
ghost use Rattle.std.specs.Prelude.{◌≡◌};
ghost use Rattle.line.specs.Sending.{answered};
ghost use Rattle.client.specs.Answers.{sent_edit, sent_ack};

use crate::Client;
use line::sending::{ask_number, finish, message};
use list::Origin;
use refusal::Refusal;
use wire::Message;

impl Client {
    // Writes the message of the pending edit of that number, unless a question says no.
    pub fn send(&self, line: u8, number: u16, out: &mut [u8]) -> Result<usize, Refusal>
        ensures { answered result out.new ≡ sent_edit self.now line number out.old }
    {
        self.check_sound()?;
        let k = &self.counts;
        if line != k.line {
            return Err(Refusal::WrongLine);
        }
        ask_number(k.own, number)?;
        let origin = Origin { line, number };
        finish(message(line, 0, origin, k.own, self.slots(), number), out)
    }

    // Writes an acknowledgement of the edits taken, unless a question says no.
    pub fn tell(&self, line: u8, out: &mut [u8]) -> Result<usize, Refusal>
        ensures { answered result out.new ≡ sent_ack self.now line out.old }
    {
        self.check_sound()?;
        let k = &self.counts;
        if line != k.line {
            return Err(Refusal::WrongLine);
        }
        finish(Message::Ack(line, 0, k.own.taken), out)
    }
}
