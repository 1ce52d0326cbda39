// One line as either end has it (01: "The server keeps the same per line"): its counts by value, its pending edits in lent words.
#![tactic(auto)]

pub mod packing;
pub mod sending;
pub mod soundness;
pub mod taking;

ghost use Rattle.std.specs.Prelude.{◌≡◌, [], ◌∷◌, ◌++◌, ℕ, ◌-◌, ◌<◌, ltb};
ghost use Rattle.limits.specs.Limits.{max_pending};
ghost use Rattle.ot.specs.Edit.{edit, item_of};
ghost use Rattle.model.specs.Cross.{inserts_of};
ghost use Rattle.pending.specs.Slots.{slots_of};
ghost use Rattle.line.specs.Line.{pending_in, Kept};
ghost use Rattle.line.specs.Keeping.{fits_list, with_kept};

use limits::{ITEMS, PENDING};
use ot::Form;

// The counts of a line.
#[derive(Clone, Copy, Default)]
pub struct Line {
    // edits made for it: at the client its own, at the server those taken on all other lines
    pub made: u16,
    pub taken: u16,
    // how many of those made the other end has acknowledged (01: told)
    pub acked: u16,
    // how many of the client's edits are inserts
    pub inserts: u16,
}

impl Line {
    // How many edits are pending: 0 where acked is the larger, as in an end that is not sound.
    pub fn pending(self) -> u16
        ensures { result ≡ self.made - self.acked }
    {
        if self.acked < self.made {
            return self.made - self.acked;
        }
        0
    }

    // Question 12: has one more pending edit a slot?
    pub fn has_room(self) -> bool
        ensures { result ≡ ltb (self.made - self.acked) max_pending }
    {
        (self.pending() as usize) < PENDING
    }

    // The counts with one more pending edit, where the line's client then has so many inserts.
    pub fn kept(self, inserts: u16) -> Line
        requires { self.made < 65535 }
        ensures { result ≡ with_kept self inserts }
    {
        Line {
            made: self.made + 1,
            taken: self.taken,
            acked: self.acked,
            inserts,
        }
    }
}

// 1 for an insert, else 0.
pub fn inserts_of(f: Form) -> u16
    ensures { (x : ℕ) → result ≡ inserts_of (edit f x) }
{
    match f {
        Form::Nothing => 0,
        Form::Delete(_) => 0,
        Form::Insert(_, _) => 1,
    }
}

// Question 9 of an edit, by the length of the list that it is applied to.
pub fn fits_list(f: Form, len: u16) -> bool
    ensures { (x : ℕ) → result ≡ fits_list (edit f x) len }
{
    ot::fit(f, len) & (len as usize + inserts_of(f) as usize <= ITEMS)
}

// One more pending edit, of form f and item x.
pub fn keep(words: &mut [u32], v: Line, f: Form, x: u32)
    requires { (Kept v words.old × (v.made - v.acked < max_pending)) × (x ≡ item_of (edit f x)) }
    ensures { words.new ≡ slots_of (pending_in v words.old ++ (edit f x ∷ [])) }
{
    pending::append(words, v.pending() as usize, f, x);
}
