// Question 2: the numbers, the list, and each line. Every test is made whatever the others find.
ghost use Rattle.std.specs.Prelude.{OnOk, ◌≡◌, true, ◌<◌, ◌≤◌, cond};
ghost use Rattle.refusal.specs.Number.{refused_by};
ghost use Rattle.limits.specs.Limits.{max_lines};
ghost use Rattle.ranks.specs.Stored.{sound_ranks};
ghost use Rattle.pending.specs.Slots.{all_from};
ghost use Rattle.server.specs.View.{sound, Sound, empty_at};
ghost use Rattle.server.specs.Right.{list_right};
ghost use Rattle.server.specs.Totals.{in_limits, sound_at, makers_sound_at, line_sound_at, Totaled};

use crate::{Counts, Server};
use refusal::Refusal;

// The edits taken on all lines in use together, and how many of them are inserts.
#[derive(Drop)]
struct Totals {
    taken: u32,
    inserts: u32,
}

impl Counts {
    fn add_up(&self) -> Totals
        requires { self.now.n ≤ max_lines }
        ensures { Totaled self.now result }
    {
        let mut taken = 0u32;
        let mut inserts = 0u32;
        for v in &self.lines[..self.n as usize] {
            taken += v.taken as u32;
            inserts += v.inserts as u32;
        }
        Totals { taken, inserts }
    }

    fn ranks_sound(&self) -> bool
        requires { self.now.n ≤ max_lines }
        ensures { result ≡ sound_ranks self.now.n self.now.ranks }
    {
        ranks::is_sound(self.n, &self.ranks)
    }

    // The numbers on which the other tests rest.
    fn in_limits(&self) -> bool
        ensures { result ≡ in_limits self.now }
    {
        let lines = (1 <= self.n) & (self.n as usize <= Server::LINES);
        lines & (self.initial as usize <= Server::INITIAL) & (self.len as usize <= Server::ITEMS)
    }
}

impl Server {
    // A line in use by its counts and pending edits, where all lines took so many edits.
    fn pending_sound(&self, at: usize, taken: u32) -> bool
        requires { at < max_lines }
        ensures { result ≡ sound_at self.now.counts taken self.now.words at }
    {
        let v = self.counts.line_at(at);
        let rank = self.counts.rank_of(at as u8 + 1);
        let others = v.made as u32 + v.taken as u32 == taken;
        others
            & line::soundness::is_sound(v.taken, v, self.slots_at(at), self.counts.n, rank, false)
    }

    // The origins of its pending edits.
    fn makers_sound(&self, at: usize) -> bool
        requires { at < max_lines }
        ensures { result ≡ makers_sound_at self.now.counts self.now.words at }
    {
        let count = self.counts.line_at(at).pending() as usize;
        line::soundness::makers_sound(self.makers_at(at), count, self.counts.n, at as u8 + 1)
    }

    // A line that is not in use.
    fn unused_empty(&self, at: usize) -> bool
        requires { at < max_lines }
        ensures { result ≡ empty_at self.now.counts self.now.words at }
    {
        let v = self.counts.line_at(at);
        line::soundness::is_empty(v, self.slots_at(at)) & list::zero_from(self.makers_at(at), 0)
    }

    fn is_line_sound(&self, at: usize, taken: u32) -> bool
        requires { at < max_lines }
        ensures { result ≡ line_sound_at self.now.counts taken self.now.words at }
    {
        if at < self.counts.n as usize {
            return self.pending_sound(at, taken) & self.makers_sound(at);
        }
        self.unused_empty(at)
    }

    // All lines, where those in use took so many edits together.
    fn lines_sound(&self, taken: u32) -> bool
        requires { self.now.counts.n ≤ max_lines }
        ensures { result ≡ all_from (line_sound_at self.now.counts taken self.now.words) 0 max_lines }
    {
        let mut well = true;
        for i in 0..Server::LINES {
            well = well & self.is_line_sound(i, taken);
        }
        well
    }

    // Behind the list all places are zero, items and origins, and the total is the sum over the items.
    fn list_sound(&self) -> bool
        ensures { result ≡ list_right self.now.counts.len self.now.counts.total self.now.words }
    {
        let len = self.counts.len as usize;
        let items = &self.words[0..Server::ITEMS];
        let sum = list::total(items, len);
        let unused = list::zero_from(items, len);
        let origins = list::zero_from(&self.words[Server::ORIGINS..Server::MAKERS], len);
        unused & origins & (self.counts.total == sum)
    }

    fn is_sound(&self) -> bool
        ensures answer { result ≡ sound self.now }
        ensures facts { result ≡ true → Sound self.now }
    {
        if self.counts.in_limits() {
            let all = self.counts.add_up();
            let right = self.counts.ranks_sound();
            let few = self.counts.len as u32 <= self.counts.initial as u32 + all.inserts;
            return right & few & self.list_sound() & self.lines_sound(all.taken);
        }
        false
    }

    // Question 2.
    // Kept a question, with `Sound` a contract and no type's invariant: callers lend any end, and while a message is taken it is unsound.
    pub(crate) fn check_sound(&self) -> Result<(), Refusal>
        ensures answer { refused_by result ≡ cond (sound self.now) 0 2 }
        ensures facts { OnOk result (Sound self.now) }
    {
        if self.is_sound() {
            return Ok(());
        }
        Err(Refusal::Unsound)
    }
}
