// What a message makes of a line. It is decided before anything is written, so that a refusal has nothing to undo.
ghost use Rattle.std.specs.Prelude.{◌≡◌, ◌≤◌, ◌<◌, length};
ghost use Rattle.limits.specs.Limits.{max_items, max_pending};
ghost use Rattle.ot.specs.Form.{position_of};
ghost use Rattle.refusal.specs.Number.{refused_by};
ghost use Rattle.model.specs.Questions.{asks};
ghost use Rattle.line.specs.Line.{Kept};
ghost use Rattle.line.specs.Taking.{carrying, arrival_of, seen_asked, arrival_asked, no_report, taken_as, Decided, zeros, Between, accepted};

use crate::Line;
use limits::PENDING;
use list::Origin;
use ot::Form;
use pending::Crossed;
use refusal::Refusal;
use wire::{Header, Message};

// A message, edit or acknowledgement alike: an acknowledgement carries no edit and has no number and no origin.
#[derive(Clone, Copy)]
pub struct Arrival {
    pub line: u8,
    pub direction: u8,
    pub number: u16,
    pub seen: u16,
    pub carries: bool,
    pub form: Form,
    pub item: u32,
    // which edit it is: its client's line and its number there
    pub origin: Origin,
}

// What the taking of an edit reports: how many pending edits it was transformed past, the position in which it arrived, and the one in which it
// was applied, 0 for nothing.
#[derive(Clone, Copy)]
pub struct Report {
    pub passed: u16,
    pub arrived: u16,
    pub applied: u16,
}

// Why a packet was not taken to its end, and how many of its messages were taken before.
#[derive(Clone, Copy, PartialEq, Eq, Debug)]
pub struct Stopped {
    pub refusal: Refusal,
    pub taken: u16,
}

// Refused before its first message.
impl From<Refusal> for Stopped {
    ghost from_gives = { λ r s. (s.refusal ≡ r) × (s.taken ≡ 0) };

    fn from(refusal: Refusal) -> Stopped {
        Stopped { refusal, taken: 0 }
    }
}

// What a message that is taken makes of a line: the report, the counts then, and the form of the edit to apply. The places of the pending
// edits that stay go into a lent array beside it.
#[derive(Drop)]
pub struct Decision {
    pub report: Report,
    pub line: Line,
    pub form: Form,
}

fn carrying(h: Header, form: Form, item: u32) -> Arrival
    ensures { result ≡ carrying h form item }
{
    let origin = h.origin;
    Arrival {
        line: h.line,
        direction: h.direction,
        number: h.number,
        seen: h.seen,
        carries: true,
        form,
        item,
        origin,
    }
}

pub fn split(m: Message) -> Arrival
    ensures { result ≡ arrival_of m }
{
    match m {
        Message::Insert(h, p, x, r) => carrying(h, Form::Insert(p, r), x),
        Message::Delete(h, p) => carrying(h, Form::Delete(p), 0),
        Message::Nothing(h) => carrying(h, Form::Nothing, 0),
        Message::Ack(line, direction, seen) => Arrival {
            line,
            direction,
            number: 0,
            seen,
            carries: false,
            form: Form::Nothing,
            item: 0,
            origin: Origin { line: 0, number: 0 },
        },
    }
}

// Questions 7 and 8.
fn ask_seen(v: Line, seen: u16) -> Result<(), Refusal>
    ensures { refused_by result ≡ asks (seen_asked v seen) }
{
    if seen < v.acked {
        return Err(Refusal::SeenTooFew);
    }
    if v.made < seen {
        return Err(Refusal::SeenTooMany);
    }
    Ok(())
}

// Questions 5 to 8, of an acknowledgement 7 and 8.
fn ask(v: Line, number: u16, seen: u16, carries: bool) -> Result<(), Refusal>
    ensures { refused_by result ≡ asks (arrival_asked v number seen carries) }
{
    if carries {
        if number <= v.taken {
            return Err(Refusal::Repeated);
        }
        if 1 < number - v.taken {
            return Err(Refusal::Early);
        }
    }
    ask_seen(v, seen)
}

// A refusal or an acknowledgement has nothing to report, and neither has an edit made here.
pub fn no_report() -> Report
    ensures { result ≡ no_report }
{
    Report {
        passed: 0,
        arrived: 0,
        applied: 0,
    }
}

// An edit that came as f is taken: x is what crossing made of it.
fn take_edit(v: Line, inserts: u16, seen: u16, f: Form, x: Crossed) -> Decision
    requires { v.taken < 65535 }
    ensures { result ≡ taken_as v inserts seen f x }
{
    let form = x.form;
    let line = Line {
        made: v.made,
        taken: v.taken + 1,
        acked: seen,
        inserts,
    };
    let report = Report {
        passed: x.passed,
        arrived: ot::position(f),
        applied: ot::position(form),
    };
    Decision { report, line, form }
}

// What a message makes of a line whose client then has so many inserts, at an end whose list has len items: questions 5 to 9.
pub fn decide(
    v: Line,
    words: &[u32],
    len: u16,
    inserts: u16,
    a: Arrival,
    later: &mut [u32; PENDING],
) -> Result<Decision, Refusal>
    requires { ((position_of a.form ≤ max_items) × (v.taken < 65535)) × (Kept v words.now × (later.old ≡ zeros)) }
    ensures { Decided v words.now len inserts a result later.new }
{
    ask(v, a.number, a.seen, a.carries)?;
    let gone = (a.seen - v.acked) as usize;
    let count = (v.made - a.seen) as usize;
    if a.carries {
        let f = a.form;
        let x = pending::cross(words, gone, count, f, later);
        let form = x.form;
        if x.placed & crate::fits_list(form, len) {
            return Ok(take_edit(v, inserts, a.seen, f, x));
        }
        return Err(Refusal::Misfit);
    }
    *later = pending::moved_down(words, gone, count);
    let line = Line {
        made: v.made,
        taken: v.taken,
        acked: a.seen,
        inserts: v.inserts,
    };
    Ok(Decision {
        report: no_report(),
        line,
        form: Form::Nothing,
    })
}

// What an accepted message leaves in the line's words.
pub fn accept(words: &mut [u32], v: Line, seen: u16, later: &[u32])
    requires { (Between v seen × (length later.now ≡ max_pending)) × Kept v words.old }
    ensures { words.new ≡ accepted v seen later.now words.old }
{
    pending::replace(
        words,
        (seen - v.acked) as usize,
        (v.made - seen) as usize,
        later,
    );
}
