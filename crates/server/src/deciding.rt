// What the server decides about a message of a client: the questions, and what becomes of the line that it came on.
ghost use Rattle.std.specs.Prelude.{◌≡◌, true, ◌<◌, ◌≤◌};
ghost use Rattle.refusal.specs.Number.{refused_by};
ghost use Rattle.limits.specs.Limits.{max_items, max_lines};
ghost use Rattle.ot.specs.Form.{position_of};
ghost use Rattle.pending.specs.Slots.{all_from};
ghost use Rattle.line.specs.Taking.{zeros};
ghost use Rattle.server.specs.View.{Sound};
ghost use Rattle.server.specs.Decides.{is_own, made_here, up_to, roomy_at, place_of, inserts_then, last_refusal, LineDecided, Decided};

use crate::{Counts, Server};
use line::taking::{Arrival, Decision};
use ot::Form;
use refusal::Refusal;

// ---- the questions

// An insert that comes up a line has the line's rank.
fn is_own(rank: u8, f: Form) -> bool
    ensures { result ≡ is_own rank f }
{
    match f {
        Form::Nothing | Form::Delete(_) => true,
        Form::Insert(_, r) => rank == r,
    }
}

// Was an edit made on the line that it comes up, under its own number? An acknowledgement has no origin.
fn made_here(a: Arrival) -> bool
    ensures { result ≡ made_here a }
{
    let o = a.origin;
    !a.carries | ((o.line == a.line) & (o.number == a.number))
}

impl Counts {
    // Question 4.
    fn comes_up(&self, a: Arrival) -> bool
        ensures { result ≡ up_to self.now a }
    {
        let f = a.form;
        let rank = self.rank_of(a.line);
        (a.direction == 0) & ((1 <= a.line) & (a.line <= self.n)) & is_own(rank, f) & made_here(a)
    }

    // Has every line in use but the one at a place, counted from 0, room for one more pending edit?
    fn others_roomy(&self, at: usize) -> bool
        requires { self.now.n ≤ max_lines }
        ensures { result ≡ all_from (roomy_at self.now at) 0 self.now.n }
    {
        let mut roomy = true;
        let n = self.n as usize;
        for i in 0..n {
            roomy = roomy & ((i == at) | self.line_at(i).has_room());
        }
        roomy
    }

    // The inserts of the line's client once a message is taken.
    fn inserts_then(&self, a: Arrival) -> u16
        requires { (place_of a < max_lines) × ((1 ≤ a.line) × (inserts_then self.now a ≤ 65535)) }
        ensures { result ≡ inserts_then self.now a }
    {
        let v = self.line_at((a.line - 1) as usize);
        let f = a.form;
        v.inserts + line::inserts_of(f)
    }

    // Questions 10 and 12 of an edit.
    fn ask_last(&self, a: Arrival) -> Result<(), Refusal>
        requires { ((place_of a < max_lines) × (1 ≤ a.line)) × ((inserts_then self.now a ≤ 65535) × (self.now.n ≤ max_lines)) }
        ensures { refused_by result ≡ last_refusal self.now a }
    {
        if !a.carries {
            return Ok(());
        }
        if Server::INSERTS < self.inserts_then(a) {
            return Err(Refusal::Inserts);
        }
        if self.others_roomy((a.line - 1) as usize) {
            return Ok(());
        }
        Err(Refusal::Full)
    }
}

// ---- the decision

impl Server {
    // What a message makes of its line: questions 5 to 9.
    fn decide_line(
        &self,
        a: Arrival,
        later: &mut [u32; Server::PENDING],
    ) -> Result<Decision, Refusal>
        requires { ((position_of a.form ≤ max_items) × (up_to self.now.counts a ≡ true)) × (Sound self.now × (later.old ≡ zeros)) }
        ensures { LineDecided self.now.counts self.now.words a result later.new }
    {
        let at = (a.line - 1) as usize;
        let v = self.counts.line_at(at);
        let inserts = self.counts.inserts_then(a);
        line::taking::decide(v, self.slots_at(at), self.counts.len, inserts, a, later)
    }

    // What a message makes of its line: questions 4 to 10 and 12.
    pub(crate) fn decide(
        &self,
        a: Arrival,
        later: &mut [u32; Server::PENDING],
    ) -> Result<Decision, Refusal>
        requires { (position_of a.form ≤ max_items) × (Sound self.now × (later.old ≡ zeros)) }
        ensures { Decided self.now.counts self.now.words a result later.new }
    {
        if !self.counts.comes_up(a) {
            return Err(Refusal::WrongLine);
        }
        let d = self.decide_line(a, later)?;
        self.counts.ask_last(a)?;
        Ok(d)
    }
}
