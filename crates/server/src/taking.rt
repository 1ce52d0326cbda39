// Taking: a message of a client, an edit or an acknowledgement.
ghost use Rattle.std.specs.Prelude.{◌≡◌, true, cond, ◌-◌, ◌<◌, ◌≤◌, Ok, length};
ghost use Rattle.limits.specs.Limits.{max_lines, max_pending};
ghost use Rattle.ot.specs.Edit.{edit, item_of};
ghost use Rattle.list.specs.Items.{capacity, Room};
ghost use Rattle.list.specs.Places.{word_of};
ghost use Rattle.wire.specs.Message.{in_range};
ghost use Rattle.pending.specs.Slots.{all_from};
ghost use Rattle.line.specs.Line.{Kept};
ghost use Rattle.line.specs.Taking.{Between, accepted, answer_of};
ghost use Rattle.server.specs.View.{slots_at, makers_at, view, store, Sound, SlotsWrote, MakersWrote, Applied};
ghost use Rattle.server.specs.Answers.{taken, taken_message};
ghost use Rattle.server.specs.Decides.{up_to, roomy_at, place_of, Decided};
ghost use Rattle.server.specs.Taking.{KeptBy, slots_kept, makers_kept, makers_left, server_then};

use crate::Server;
use crate::parts::{makers_range, slots_range};
use line::Line;
use line::taking::{Arrival, Decision, Report, accept, split};
use list::Origin;
use ot::Form;
use refusal::Refusal;
use wire::Message;

// ---- the words of one line, and of the list
// Kept as functions of the words: as methods they would have to say that the numbers stay.

// The line at a place keeps one more edit, of form f and item x.
fn keep_at(words: &mut [u32; Server::WORDS], at: usize, v: Line, f: Form, x: u32)
    requires { (at < max_lines) × ((Kept v (slots_at at words.old) × (v.made - v.acked < max_pending)) × (x ≡ item_of (edit f x))) }
    ensures { SlotsWrote at (slots_kept (edit f x) v (slots_at at words.old)) words.old words.new }
{
    line::keep(&mut words[slots_range(at)], v, f, x);
}

// The origin of that edit, as a word, goes behind those of the line's pending edits.
fn name_at(words: &mut [u32; Server::WORDS], at: usize, v: Line, word: u32)
    requires { (at < max_lines) × (v.made - v.acked < max_pending) }
    ensures { MakersWrote at (makers_kept word v (makers_at at words.old)) words.old words.new }
{
    words[makers_range(at).start + v.pending() as usize] = word;
}

// What an accepted message leaves of the line's own pending edits.
fn accept_at(words: &mut [u32; Server::WORDS], at: usize, v: Line, seen: u16, later: &[u32])
    requires { (at < max_lines) × ((Between v seen × (length later.now ≡ max_pending)) × Kept v (slots_at at words.old)) }
    ensures { SlotsWrote at (accepted v seen later.now (slots_at at words.old)) words.old words.new }
{
    accept(&mut words[slots_range(at)], v, seen, later);
}

// The origins of those that were acknowledged go.
fn drop_makers(words: &mut [u32; Server::WORDS], at: usize, v: Line, seen: u16)
    requires { (at < max_lines) × (Between v seen × (v.made - v.acked ≤ max_pending)) }
    ensures { MakersWrote at (makers_left v seen (makers_at at words.old)) words.old words.new }
{
    pending::drop_front(
        &mut words[makers_range(at)],
        (seen - v.acked) as usize,
        (v.made - seen) as usize,
    );
}

// Applies the edit of form f, item x and that origin to the list of len places, and gives its new length.
fn apply(words: &mut [u32; Server::WORDS], len: u16, f: Form, x: u32, origin: Origin) -> u16
    requires { Room (edit f x) len capacity }
    ensures { Applied f x origin len words.old words.new result }
{
    let word = list::word_of(origin);
    list::apply(&mut words[Server::ORIGINS..Server::MAKERS], len, f, word);
    list::apply(&mut words[0..Server::ITEMS], len, f, x)
}

// ---- the server

impl Server {
    // Every line in use but the one at a place keeps one more edit, of form f, item x and an origin.
    fn keep_others(&mut self, at: usize, f: Form, x: u32, word: u32)
        requires { (Sound self.old × (at < max_lines)) × ((all_from (roomy_at self.old.counts at) 0 self.old.counts.n ≡ true) × (x ≡ item_of (edit f x))) }
        ensures { KeptBy self.old.counts.n at (edit f x) word self.old.counts self.old.words self.new.counts self.new.words }
    {
        let n = self.counts.n as usize;
        for i in 0..n {
            if i == at {
                continue;
            }
            let v = self.counts.line_at(i);
            keep_at(&mut self.words, i, v, f, x);
            name_at(&mut self.words, i, v, word);
            self.counts.lines[i] = v.kept(v.inserts);
        }
    }

    // An edit is kept by the other lines, an acknowledgement by none.
    fn pass_on(&mut self, a: Arrival, f: Form)
        requires { (Sound self.old × (up_to self.old.counts a ≡ true)) × ((a.carries ≡ true → all_from (roomy_at self.old.counts (place_of a)) 0 self.old.counts.n ≡ true) × (a.item ≡ item_of (edit f a.item))) }
        ensures { KeptBy (cond a.carries self.old.counts.n 0) (place_of a) (edit f a.item) (word_of a.origin) self.old.counts self.old.words self.new.counts self.new.words }
    {
        if a.carries {
            let word = list::word_of(a.origin);
            self.keep_others((a.line - 1) as usize, f, a.item, word);
        }
    }

    // What an accepted message changes: the other lines, its own line, the list.
    fn change(&mut self, a: Arrival, d: Decision, later: &[u32])
        requires { Sound self.old × (Decided self.old.counts self.old.words a (Ok d) later.now × (a.item ≡ item_of (edit d.form a.item))) }
        ensures { self.new ≡ store (server_then (view self.old) a) }
    {
        let f = d.form;
        let at = (a.line - 1) as usize;
        let v = self.counts.line_at(at);
        let len = self.counts.len;
        let total = list::total_after(&self.words[0..len as usize], self.counts.total, f, a.item);
        self.pass_on(a, f);
        accept_at(&mut self.words, at, v, a.seen, later);
        drop_makers(&mut self.words, at, v, a.seen);
        self.counts.lines[at] = d.line;
        self.counts.len = apply(&mut self.words, len, f, a.item, a.origin);
        self.counts.total = total;
    }

    // Takes a message that was read, at a server that question 2 found sound: the decision, then what an accepted message changes.
    fn take_message(&mut self, m: Message) -> Result<Report, Refusal>
        requires { (in_range m ≡ true) × Sound self.old }
        ensures { answer_of result self.new ≡ taken_message self.old m }
    {
        let a = split(m);
        let mut later = [0u32; Server::PENDING];
        let d = self.decide(a, &mut later)?;
        let report = d.report;
        self.change(a, d, &later);
        Ok(report)
    }

    // Questions 3 to 10 and 12 at a server that question 2 found sound.
    pub(crate) fn take_sound(&mut self, bytes: &[u8]) -> Result<Report, Refusal>
        requires { Sound self.old }
        ensures { answer_of result self.new ≡ taken self.old bytes.now }
    {
        let Some(m) = wire::reading::parse(bytes) else {
            return Err(Refusal::NoMessage);
        };
        self.take_message(m)
    }

    // Takes one message.
    pub fn take(&mut self, bytes: &[u8]) -> Result<Report, Refusal>
        ensures { answer_of result self.new ≡ taken self.old bytes.now }
    {
        self.check_sound()?;
        self.take_sound(bytes)
    }
}
