// The numbers and words of the server in parts: one line's counts, its pending edits, and the origins of these.
ghost use Rattle.std.specs.Prelude.{◌≡◌, ◌<◌, ◌+◌, ◌*◌};
ghost use Rattle.limits.specs.Limits.{max_lines, max_items, max_pending};
ghost use Rattle.model.specs.Ranks.{rank_of};
ghost use Rattle.pending.specs.Slots as pending;
ghost use Rattle.server.specs.View.{counts_at};
ghost use Rattle.server.specs.Words.{makers, slots_at, makers_at};

use crate::{Counts, Server};
use line::Line;
use std::ops::Range;

// Where the words of the pending edits of the line at a place stand, counted from 0, and the origins of these.
// A place is kept a plain index: a type of the numbers below 8 would be made from a loop's counter and opened again in every call.
pub fn slots_range(at: usize) -> Range<usize>
    requires { at < max_lines }
    ensures { (result.start ≡ max_items + pending.size * at) × (result.end ≡ max_items + pending.size * at + pending.size) }
{
    let from = Server::ITEMS + pending::WORDS * at;
    from..from + pending::WORDS
}

pub fn makers_range(at: usize) -> Range<usize>
    requires { at < max_lines }
    ensures { (result.start ≡ makers + max_pending * at) × (result.end ≡ makers + max_pending * at + max_pending) }
{
    let from = Server::MAKERS + Server::PENDING * at;
    from..from + Server::PENDING
}

impl Counts {
    // The counts of the line at a place.
    pub(crate) fn line_at(&self, at: usize) -> Line
        requires { at < max_lines }
        ensures { result ≡ counts_at self.now at }
    {
        self.lines[at]
    }

    // The rank of a line.
    pub(crate) fn rank_of(&self, line: u8) -> u8
        ensures { result ≡ rank_of self.now.ranks line }
    {
        ranks::of_line(&self.ranks, line)
    }
}

impl Server {
    pub(crate) fn slots_at(&self, at: usize) -> &[u32]
        requires { at < max_lines }
        ensures { result.now ≡ slots_at at self.now.words }
    {
        &self.words[slots_range(at)]
    }

    pub(crate) fn makers_at(&self, at: usize) -> &[u32]
        requires { at < max_lines }
        ensures { result.now ≡ makers_at at self.now.words }
    {
        &self.words[makers_range(at)]
    }
}
