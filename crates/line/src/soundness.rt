// Question 2 about one line. Every test is made whatever the others find, so that no loop has a branch.
ghost use Rattle.std.specs.Prelude.{ℕ, ◌≡◌, true, false, ◌≤◌, length};
ghost use Rattle.limits.specs.Limits.{max_pending};
ghost use Rattle.list.specs.Places.{origin_at};
ghost use Rattle.model.specs.Server.{other_maker};
ghost use Rattle.pending.specs.Slots.{size, all_from};
ghost use Rattle.line.specs.Line.{Kept};
ghost use Rattle.line.specs.Sound.{right_priority, sound_line, maker_at, makers_sound, empty_line};
ghost use Rattle.line.specs.Slots.{allowed, right_slot, right_at, sound_slots, counts_sound};

use crate::Line;
use limits::{EDITS, INSERTS, PENDING};

// The priorities that a pending insert may have: from low to high but other, chosen once for all slots. 0 is none of them.
#[derive(Clone, Copy)]
struct Allowed {
    low: u32,
    high: u32,
    other: u32,
    ghost no_zero: { allowed low high other 0 ≡ false },
}

impl Allowed {
    // In a client's own edits (own) its line's rank alone, in what the server keeps for a line a rank of 1 to n but the line's.
    fn chosen(n: u8, rank: u8, own: bool) -> Allowed
        ensures { (r : ℕ) → 1 ≤ r → allowed result.low result.high result.other r ≡ right_priority n rank own r }
    {
        let rank = rank as u32;
        if own {
            return Allowed {
                low: rank,
                high: rank,
                other: 0,
            };
        }
        Allowed {
            low: 1,
            high: n as u32,
            other: rank,
        }
    }

    fn allows(self, r: u32) -> bool
        ensures { result ≡ allowed self.low self.high self.other r }
    {
        (self.low <= r) & (r <= self.high) & !(r == self.other)
    }
}

// A slot in use, by its words alone: nothing, or a position of 1 to 512 with a delete or with an insert of an allowed priority. Nothing
// and a delete have priority 0 and item 0. All numbers have 32 bits, so that a vectorised loop converts none.
fn is_right(place: u32, item: u32, good: Allowed) -> bool
    ensures { result ≡ right_slot (allowed good.low good.high good.other) place item }
{
    let r = place % 256;
    let no_insert = (r == 0) & (item == 0);
    let insert = good.allows(r) & (256 <= place);
    (place < 131328) & (no_insert | insert)
}

// The first slots of a line, in use or not: an empty slot is a right one as well. The loop has no branch, so that it is vectorised.
fn slots_right(places: &[u32], items: &[u32], good: Allowed) -> bool
    requires { length places.now ≡ length items.now }
    ensures { result ≡ all_from (right_at (allowed good.low good.high good.other) places.now items.now) 0 (length places.now) }
{
    let mut right = true;
    for (place, item) in places.iter().zip(items) {
        right = right & is_right(*place, *item, good);
    }
    right
}

// The counts of a line whose client made so many edits.
fn counts_sound(edits: u16, v: Line) -> bool
    ensures { result ≡ counts_sound edits v }
{
    (edits <= EDITS) & (v.acked <= v.made) & (v.inserts <= INSERTS) & (v.inserts <= edits)
}

// The slots of a line, of which count are in use. Those in use are looked at by eights, so that the vectorised loop leaves no remainder;
// the others are zero.
fn slots_sound(places: &[u32], items: &[u32], count: usize, good: Allowed) -> bool
    requires { (length places.now ≡ max_pending) × (length items.now ≡ max_pending) }
    ensures { result ≡ sound_slots (allowed good.low good.high good.other) count places.now items.now }
{
    if PENDING < count {
        return false;
    }
    let slots = (count + 7) / 8 * 8;
    slots_right(&places[..slots], &items[..slots], good)
        & list::zero_from(places, count)
        & list::zero_from(items, count)
}

// Question 2 of a line whose client made so many edits. Its inserts have its own priority (own: a bool, as right_priority takes it) or another's.
pub fn is_sound(edits: u16, v: Line, words: &[u32], n: u8, rank: u8, own: bool) -> bool
    requires { length words.now ≡ size }
    ensures answer { result ≡ sound_line edits (right_priority n rank own) v words.now }
    ensures facts { result ≡ true → Kept v words.now }
{
    let count = v.pending() as usize;
    // Nothing pending: a loop of fixed length, which the compiler unrolls.
    if count == 0 {
        return counts_sound(edits, v) & list::zero_from(&words[..pending::WORDS], 0);
    }
    counts_sound(edits, v)
        & slots_sound(
            &words[0..PENDING],
            &words[PENDING..pending::WORDS],
            count,
            Allowed::chosen(n, rank, own),
        )
}

// The origin of a pending edit: another line of 1 to n, and a number of 1 to 400.
fn is_maker(word: u32, n: u32, line: u32) -> bool
    ensures { result ≡ other_maker n line (origin_at word) }
{
    let maker = word / 65536;
    let number = word % 65536;
    let right = (1 <= maker) & (maker <= n) & !(maker == line);
    right & ((1 <= number) & (number <= EDITS as u32))
}

// The origins in use. The loop has no branch, so that it is vectorised.
fn makers_right(words: &[u32], n: u32, line: u32) -> bool
    ensures { result ≡ all_from (maker_at n line words.now) 0 (length words.now) }
{
    let mut right = true;
    for word in words {
        right = right & is_maker(*word, n, line);
    }
    right
}

// Question 2 of the origins of a line's pending edits, of which there are so many. The others are zero.
pub fn makers_sound(words: &[u32], count: usize, n: u8, line: u8) -> bool
    requires { length words.now ≡ max_pending }
    ensures { result ≡ makers_sound n line count words.now }
{
    if count > PENDING {
        return false;
    }
    // Nothing pending: a loop of fixed length here too.
    if count == 0 {
        return list::zero_from(&words[..PENDING], 0);
    }
    makers_right(&words[..count], n as u32, line as u32) & list::zero_from(words, count)
}

// Question 2 of a line that is not in use.
pub fn is_empty(v: Line, words: &[u32]) -> bool
    requires { length words.now ≡ size }
    ensures answer { result ≡ empty_line v words.now }
    ensures facts { result ≡ true → Kept v words.now }
{
    (v.made == 0) & (v.taken == 0) & (v.acked == 0) & (v.inserts == 0) & list::zero_from(words, 0)
}
