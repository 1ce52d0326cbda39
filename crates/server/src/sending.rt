// Sending, which changes no end: a pending edit of a line in its present form, or an acknowledgement of what was taken there.
ghost use Rattle.std.specs.Prelude.{OnOk, ◌≡◌};
ghost use Rattle.refusal.specs.Number.{refused_by};
ghost use Rattle.model.specs.Questions.{asks};
ghost use Rattle.model.specs.Server.{server_message};
ghost use Rattle.line.specs.Sending.{answered};
ghost use Rattle.server.specs.View.{view, Sound};
ghost use Rattle.server.specs.Answers.{sent_edit, sent_ack};
ghost use Rattle.server.specs.Sending.{line_asked, send_asked, OnLine, Sendable};

use crate::Server;
use line::sending::{ask_number, finish, message};
use refusal::Refusal;
use wire::Message;

impl Server {
    // Questions 2 and 4.
    pub fn ask_line(&self, line: u8) -> Result<(), Refusal>
        ensures answer { refused_by result ≡ asks (line_asked self.now line) }
        ensures facts { OnOk result (Sound self.now × OnLine self.now.counts line) }
    {
        self.check_sound()?;
        if (1 <= line) & (line <= self.counts.n) {
            return Ok(());
        }
        Err(Refusal::WrongLine)
    }

    // Questions 2, 4 and 13.
    fn ask_send(&self, line: u8, number: u16) -> Result<(), Refusal>
        ensures answer { refused_by result ≡ send_asked self.now line number }
        ensures facts { OnOk result (Sendable self.now.counts self.now.words line number) }
    {
        self.ask_line(line)?;
        let v = self.counts.line_at((line - 1) as usize);
        ask_number(v, number)
    }

    // The message of a pending edit, with the origin that is kept beside it.
    fn message_of(&self, line: u8, number: u16) -> Message
        requires { Sendable self.now.counts self.now.words line number }
        ensures { result ≡ server_message (view self.now) line number }
    {
        let at = (line - 1) as usize;
        let v = self.counts.line_at(at);
        let makers = self.makers_at(at);
        let origin = list::origin_at(makers[(number - 1 - v.acked) as usize]);
        message(line, 1, origin, v, self.slots_at(at), number)
    }

    // Writes the message of the pending edit of that number into the lent buffer, unless a question says no.
    pub fn send(&self, line: u8, number: u16, out: &mut [u8]) -> Result<usize, Refusal>
        ensures { answered result out.new ≡ sent_edit self.now line number out.old }
    {
        self.ask_send(line, number)?;
        finish(self.message_of(line, number), out)
    }

    // Writes an acknowledgement of all edits taken on a line into the lent buffer, unless a question says no.
    pub fn tell(&self, line: u8, out: &mut [u8]) -> Result<usize, Refusal>
        ensures { answered result out.new ≡ sent_ack self.now line out.old }
    {
        self.ask_line(line)?;
        let v = self.counts.line_at((line - 1) as usize);
        finish(Message::Ack(line, 1, v.taken), out)
    }
}
