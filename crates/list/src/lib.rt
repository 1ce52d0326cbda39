// A list in the first places of an array: the initial list, an edit applied in place, and the test that unused places are zero. A place
// holds an item and its origin; items and origins are arrays of their own, an origin a word.
#![tactic(auto)]

ghost use Rattle.std.specs.Prelude.{◌≡◌, ℕ, ◌-◌, ◌<◌, ◌≤◌, List, [], ◌∷◌, ◌++◌, length, get_or, take, drop, replicate, true};
ghost use Rattle.ot.specs.Edit.{edit, applied, fits};
ghost use Rattle.limits.specs.Limits.{max_initial};
ghost use Rattle.list.specs.Items.{capacity, stored, initial_items, all_zero, Room, Edited};
ghost use Rattle.list.specs.Places.{initial_places, origins_of, word_of, origin_at};
ghost use Rattle.list.specs.Seconds.{total_seconds};

use limits::INITIAL;
use ot::Form;

// An item is its seconds and a multiple of this: the low 12 bits.
const SECONDS: u32 = 4096;

// Which edit put an item on the list: its client's line and its number there. Line 0 is the initial list, with the place as number.
#[derive(Clone, Copy)]
pub struct Origin {
    pub line: u8,
    pub number: u16,
}

// An origin as a word. Kept as functions, not From and TryFrom: a u32 is also an item, the name says which, and `origin_at` cannot fail.
pub fn word_of(o: Origin) -> u32
    ensures { result ≡ word_of o }
{
    o.line as u32 * 65536 + o.number as u32
}

// The origin that a word is, where its line has 8 bits.
pub fn origin_at(word: u32) -> Origin
    requires { word < 16777216 }
    ensures { result ≡ origin_at word }
{
    Origin {
        line: (word / 65536) as u8,
        number: (word % 65536) as u16,
    }
}

// Puts x in front of a part of a list whose last place is not in use; what stands there moves up by one.
fn insert_front(part: &mut [u32], x: u32)
    requires { 0 < length part.old }
    ensures { part.new ≡ x ∷ take (length part.old - 1) part.old }
{
    let last = part.len() - 1;
    part.copy_within(..last, 1);
    part[0] = x;
}

// Takes the first item out of a part of a list; those behind it move down by one, and the place that this frees becomes 0.
fn delete_front(part: &mut [u32])
    requires { 0 < length part.old }
    ensures { part.new ≡ drop 1 part.old ++ 0 ∷ [] }
{
    let last = part.len() - 1;
    part.copy_within(1.., 0);
    part[last] = 0;
}

// Applies the edit of form f and item x to the list that the first len places hold, and gives its new length.
pub fn apply(items: &mut [u32], len: u16, f: Form, x: u32) -> u16
    requires { (length items.old ≡ capacity) × Room (edit f x) len capacity }
    ensures { Edited (edit f x) len items.old items.new result }
{
    match f {
        Form::Nothing => len,
        Form::Delete(p) => {
            let from = (p - 1) as usize;
            let to = len as usize;
            delete_front(&mut items[from..to]);
            len - 1
        }
        Form::Insert(p, _) => {
            let from = (p - 1) as usize;
            let to = len as usize + 1;
            insert_front(&mut items[from..to], x);
            len + 1
        }
    }
}

// The item at place i, counted from 0; 0 past the end.
pub fn item_at(items: &[u32], i: usize) -> u32
    ensures { result ≡ get_or items.now i 0 }
{
    items.get(i).copied().unwrap_or(0)
}

// The seconds of the first len items together, the low 12 bits of each.
pub fn total(items: &[u32], len: usize) -> u32
    requires { length items.now ≤ capacity }
    ensures { result ≡ total_seconds (take len items.now) }
{
    items.iter().take(len).map(|item| item % SECONDS).sum()
}

// The total once the edit of form f and item x is applied to the list: an insert adds its seconds, a delete subtracts those of its item.
pub fn total_after(items: &[u32], total: u32, f: Form, x: u32) -> u32
    requires { (length items.now ≤ capacity) × ((fits (edit f x) (length items.now) ≡ true) × (total ≡ total_seconds items.now)) }
    ensures { result ≡ total_seconds (applied (edit f x) items.now) }
{
    match f {
        Form::Nothing => total,
        Form::Delete(p) => total - items[(p - 1) as usize] % SECONDS,
        Form::Insert(_, _) => total + x % SECONDS,
    }
}

// Puts the first 128 items into the array of an end, whose places are zero.
pub fn initial(items: &[u32], list: &mut [u32])
    requires { list.old ≡ replicate capacity 0 }
    ensures { list.new ≡ initial_items items.now }
{
    let count = items.len().min(INITIAL);
    list[..count].copy_from_slice(&items[..count]);
}

// Puts the origins of an initial list of len items into an array that is zero.
pub fn initial_origins(len: usize, list: &mut [u32])
    requires { (len ≤ max_initial) × (list.old ≡ replicate capacity 0) }
    ensures { (xs : List ℕ) → length xs ≡ len → list.new ≡ stored (origins_of (initial_places xs)) }
{
    for (i, word) in list[..len].iter_mut().enumerate() {
        *word = i as u32 + 1;
    }
}

// Are the places from len on zero? ORs all words together and compares once, so that the loop has no branch.
pub fn zero_from(items: &[u32], len: usize) -> bool
    ensures { result ≡ all_zero (drop len items.now) }
{
    let unused = &items[len.min(items.len())..];
    unused.iter().fold(0, |all, word| all | word) == 0
}
