// Taking: a message from the server, an edit of another client or an acknowledgement.
ghost use Rattle.std.specs.Prelude.{◌≡◌, ◌≤◌};
ghost use Rattle.limits.specs.Limits.{max_items};
ghost use Rattle.ot.specs.Form.{position_of};
ghost use Rattle.line.specs.Taking.{answer_of};
ghost use Rattle.client.specs.View.{Sound};
ghost use Rattle.client.specs.Answers.{taken};
ghost use Rattle.client.specs.Taking.{from_other, made_elsewhere, down_to, arrived};

use crate::{Client, apply, undo};
use line::taking::{Arrival, Report, accept, decide, split};
use ot::Form;
use refusal::Refusal;

// Is an insert's priority another rank of 1 to n?
fn from_other(n: u8, rank: u8, f: Form) -> bool
    ensures { result ≡ from_other n rank f }
{
    match f {
        Form::Nothing | Form::Delete(_) => true,
        Form::Insert(_, r) => (1 <= r) & (r <= n) & !(r == rank),
    }
}

// Was an edit made by another client of 1 to n? An acknowledgement has no maker.
fn made_elsewhere(n: u8, line: u8, carries: bool, maker: u8) -> bool
    ensures { result ≡ made_elsewhere n line carries maker }
{
    !carries | ((1 <= maker) & (maker <= n) & !(maker == line))
}

impl Client {
    // Takes one message.
    pub fn take(&mut self, bytes: &[u8]) -> Result<Report, Refusal>
        ensures { answer_of result self.new ≡ taken self.old bytes.now }
    {
        self.check_sound()?;
        self.take_sound(bytes)
    }

    // Questions 3 to 9 at a client that question 2 found sound.
    pub(crate) fn take_sound(&mut self, bytes: &[u8]) -> Result<Report, Refusal>
        requires { Sound self.old }
        ensures { answer_of result self.new ≡ taken self.old bytes.now }
    {
        let Some(m) = wire::reading::parse(bytes) else {
            return Err(Refusal::NoMessage);
        };
        self.take_arrival(split(m))
    }

    // Question 4.
    fn comes_down(&self, a: Arrival) -> bool
        ensures { result ≡ down_to self.now.counts a }
    {
        let k = &self.counts;
        let right = (a.direction == 1) & (a.line == k.line);
        let ranked = from_other(k.n, self.rank(), a.form);
        let made = made_elsewhere(k.n, k.line, a.carries, a.origin.line);
        right & ranked & made
    }

    // Questions 4 to 9 at a client that question 2 found sound: the decision, then what it changes.
    fn take_arrival(&mut self, a: Arrival) -> Result<Report, Refusal>
        requires { (position_of a.form ≤ max_items) × Sound self.old }
        ensures { answer_of result self.new ≡ arrived self.old a }
    {
        if !self.comes_down(a) {
            return Err(Refusal::WrongLine);
        }
        let own = self.counts.own;
        let len = self.counts.len;
        let mut later = [0u32; Client::PENDING];
        let d = decide(own, self.slots(), len, own.inserts, a, &mut later)?;
        let f = d.form;
        let inverse = undo::past(self.counts.inverse, f);
        if !undo::stands(pending::form_at(inverse.place)) {
            return Err(Refusal::Misfit);
        }
        let total = list::total_after(&self.words[0..len as usize], self.counts.total, f, a.item);
        accept(
            &mut self.words[Client::ITEMS..Client::ORIGINS],
            own,
            a.seen,
            &later,
        );
        self.counts.len = apply(&mut self.words, len, f, a.item, a.origin);
        self.counts.own = d.line;
        self.counts.total = total;
        self.counts.inverse = inverse;
        Ok(d.report)
    }
}
