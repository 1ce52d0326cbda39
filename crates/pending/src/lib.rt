// The pending edits of a line (01: its kept edits) as words that can be lent. A line has 64 slots, and a slot two words: its place,
// position * 256 + priority, among the first 64 words, and the item that the edit brings among the last 64.
#![tactic(auto)]

ghost use Rattle.std.specs.Prelude.{◌≡◌, ◌++◌, ◌+◌, ◌≤◌, ◌<◌, length, get_or, set, take, drop, replicate};
ghost use Rattle.limits.specs.Limits.{max_items, max_pending};
ghost use Rattle.ot.specs.Form.{position_of};
ghost use Rattle.list.specs.Items.{padded};
ghost use Rattle.model.specs.Cross.{placed};
ghost use Rattle.ot.specs.Edit.{edit};
ghost use Rattle.pending.specs.Slots.{size, place_of, form_at, form_in};
ghost use Rattle.pending.specs.Crossing.{forms_from, over_forms, crossed, filled, Ready};

use limits::{ITEMS, PENDING};
use ot::Form;

// The words of a line.
pub const WORDS: usize = 2 * PENDING;

// What an arriving edit leaves: its own form after the pending edits, whether the forms of these after it have positions that a message
// can carry, and how many pending edits it was transformed past. Kept as a flag beside the form: `crossed` says the form in both cases.
#[derive(Drop)]
pub struct Crossed {
    pub form: Form,
    pub placed: bool,
    pub passed: u16,
}

// ---- one slot

// Where an edit stands: 0 for nothing; a delete has priority 0. Kept as numbers: the ends store these words, and C lends them. Kept as
// functions, not From: a u32 is also an item or an origin, and the name says which.
pub fn place_of(f: Form) -> u32
    ensures { result ≡ place_of f }
{
    match f {
        Form::Nothing => 0,
        Form::Delete(p) => p as u32 * 256,
        Form::Insert(p, r) => p as u32 * 256 + r as u32,
    }
}

// What a place means.
pub fn form_at(place: u32) -> Form
    ensures { result ≡ form_at place }
{
    let p = (place / 256 % 65536) as u16;
    let r = (place % 256) as u8;
    match (p, r) {
        (0, _) => Form::Nothing,
        (_, 0) => Form::Delete(p),
        _ => Form::Insert(p, r),
    }
}

// The form of the edit in slot i, counted from 0, and its item.
pub fn form_in(words: &[u32], i: usize) -> Form
    ensures { result ≡ form_in words.now i }
{
    form_at(list::item_at(words, i))
}

pub fn item_in(words: &[u32], i: usize) -> u32
    requires { i < max_pending }
    ensures { result ≡ get_or words.now (max_pending + i) 0 }
{
    list::item_at(words, PENDING + i)
}

// ---- crossing

// A position of 1 to 512, if there is one.
fn is_placed(f: Form) -> bool
    ensures { result ≡ placed (edit f 0) }
{
    match f {
        Form::Nothing => true,
        Form::Delete(p) | Form::Insert(p, _) => (1 <= p) & (p as usize <= ITEMS),
    }
}

// The arriving edit goes past the count pending ones whose first slot is from, in order, and each of these past the arriving edit as
// it stood before that one. The places of their later forms go into the lent array, so that a refusal has nothing to undo.
pub fn cross(
    words: &[u32],
    from: usize,
    count: usize,
    f: Form,
    later: &mut [u32; PENDING],
) -> Crossed
    requires { (position_of f ≤ max_items) × (Ready from count words.now × (later.old ≡ replicate max_pending 0)) }
    ensures answer { result ≡ crossed f (forms_from words.now from count) }
    ensures places { later.new ≡ filled (over_forms f (forms_from words.now from count)) }
{
    let mut current = f;
    let mut placed = true;
    // The turns are counted: how many edits it went past is part of the answer.
    let mut passed = 0u16;
    for (i, &word) in words[from..from + count].iter().enumerate() {
        let p = form_at(word);
        let form = ot::transform(p, current).form;
        later[i] = place_of(form);
        placed &= is_placed(form);
        current = ot::transform(current, p).form;
        passed += 1;
    }
    Crossed {
        form: current,
        placed,
        passed,
    }
}

// ---- what is written

// The array that has count words of another, the first of them at from, and zeros behind them.
pub fn moved_down(words: &[u32], from: usize, count: usize) -> [u32; PENDING]
    requires { (count ≤ max_pending) × (from + count ≤ length words.now) }
    ensures { result ≡ padded 0 max_pending (take count (drop from words.now)) }
{
    let mut a = [0; PENDING];
    a[..count].copy_from_slice(&words[from..from + count]);
    a
}

// The first gone of gone + count words go; the others move down, and what is left of the 64 is zero.
pub fn drop_front(words: &mut [u32], gone: usize, count: usize)
    requires { (length words.old ≡ max_pending) × (gone + count ≤ max_pending) }
    ensures { words.new ≡ padded 0 max_pending (take count (drop gone words.old)) }
{
    words.copy_within(gone..gone + count, 0);
    words[count..].fill(0);
}

// The first gone of gone + count edits go. The places of the others are later's, and their items, which no transformation changes, move
// down.
pub fn replace(words: &mut [u32], gone: usize, count: usize, later: &[u32])
    requires { (length words.old ≡ size) × ((gone + count ≤ max_pending) × (length later.now ≡ max_pending)) }
    ensures { words.new ≡ later.now ++ padded 0 max_pending (take count (drop (max_pending + gone) words.old)) }
{
    let (places, items) = words.split_at_mut(PENDING);
    places.copy_from_slice(later);
    drop_front(items, gone, count);
}

// One more edit, of form f and item x, behind count others.
pub fn append(words: &mut [u32], count: usize, f: Form, x: u32)
    requires { (length words.old ≡ size) × (count < max_pending) }
    ensures { words.new ≡ set (set words.old count (place_of f)) (max_pending + count) x }
{
    words[count] = place_of(f);
    words[PENDING + count] = x;
}
