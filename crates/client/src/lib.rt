// The client's end of a sheet (01: the bay end): its state, opening, question 2, and what the calls that change it share.
#![tactic(auto)]

mod editing;
mod packets;
mod sending;
mod taking;
mod undo;
pub mod values;

ghost use Rattle.std.specs.Prelude.{◌≡◌, true, MatchResult};
ghost use Rattle.ot.specs.Edit.{edit};
ghost use Rattle.list.specs.Items.{capacity, Room};
ghost use Rattle.model.specs.Ranks.{rank_of};
ghost use Rattle.model.specs.Client as model;
ghost use Rattle.line.specs.Taking.{done_of};
ghost use Rattle.client.specs.View.{slots_in, store, list_right, sound, Sound, SaysUnsound, Applied};
ghost use Rattle.client.specs.Answers.{opened};

use line::Line;
use list::Origin;
use ot::Form;
use refusal::Refusal;

// An edit that taking back would make, or nothing: its place as in a slot, position * 256 + priority, and the item of an insert.
// Kept as two words: they lie so in the bytes of an end that C holds.
#[derive(Clone, Copy, Default)]
pub struct Inverse {
    pub place: u32,
    pub item: u32,
}

// The numbers of a client.
#[derive(Clone, Copy)]
pub struct Counts {
    pub own: Line,
    // how many items the list has, and their seconds together
    pub len: u16,
    pub total: u32,
    // of its latest edit
    pub inverse: Inverse,
    // how many clients the sheet has, and which this one is
    pub n: u8,
    pub line: u8,
    // the rank of line l at place l - 1, zeros past n
    pub ranks: [u8; ranks::PLACES],
}

// All state of a client. Unused places are zero.
// Kept as one array with counts beside it: an end has fixed memory, and these words lie so in the bytes that C holds.
#[derive(Clone, Copy)]
pub struct Client {
    pub counts: Counts,
    // the items, of which the first len are the list; then the words of its line, the pending edits; then the items' origins
    pub words: [u32; Client::WORDS],
}

// Applies the edit of form f, item x and that origin to the list of len places, and gives its new length.
fn apply(words: &mut [u32; Client::WORDS], len: u16, f: Form, x: u32, origin: Origin) -> u16
    requires { Room (edit f x) len capacity }
    ensures { Applied f x origin len words.old words.new result }
{
    let word = list::word_of(origin);
    list::apply(&mut words[Client::ORIGINS..Client::WORDS], len, f, word);
    list::apply(&mut words[0..Client::ITEMS], len, f, x)
}

impl Client {
    // The limits of a client, by name.
    pub const LINES: u8 = limits::LINES;

    pub const INSERTS: u16 = limits::INSERTS;

    pub const EDITS: u16 = limits::EDITS;

    pub const OTHERS: u16 = limits::OTHERS;

    pub const PENDING: usize = limits::PENDING;

    pub const ITEMS: usize = limits::ITEMS;

    pub const INITIAL: usize = limits::INITIAL;

    // Where the origins of the items begin, and the words of a client.
    pub const ORIGINS: usize = Client::ITEMS + pending::WORDS;

    pub const WORDS: usize = Client::ORIGINS + Client::ITEMS;

    // A client of no sheet: all zeros, as a refused opening leaves it.
    pub fn empty() -> Client
        ensures { result ≡ store model.no_client }
    {
        let counts = Counts {
            own: Line::default(),
            len: 0,
            total: 0,
            inverse: Inverse::default(),
            n: 0,
            line: 0,
            ranks: [0; ranks::PLACES],
        };
        Client {
            counts,
            words: [0; Client::WORDS],
        }
    }

    // Makes it the client of line `line` of n, with the ranks of all lines and the initial list, whatever it was before: questions 1 and 16.
    // Refused, it is all zeros.
    pub fn open(&mut self, n: u8, line: u8, ranks: &[u8], items: &[u32]) -> Result<(), Refusal>
        ensures { done_of result self.new ≡ opened n line ranks.now items.now }
    {
        *self = Client::empty();
        let lines = (1 <= n) & (n <= Client::LINES);
        let mine = (1 <= line) & (line <= n);
        let sized = lines & mine & (items.len() <= Client::INITIAL);
        let ranked = ranks::is_ranking(n, ranks);
        if !sized {
            return Err(Refusal::Opening);
        }
        if !ranked {
            return Err(Refusal::Ranks);
        }
        list::initial_origins(items.len(), &mut self.words[Client::ORIGINS..Client::WORDS]);
        list::initial(items, &mut self.words[0..Client::ITEMS]);
        self.counts.len = items.len() as u16;
        self.counts.total = list::total(items, items.len());
        self.counts.n = n;
        self.counts.line = line;
        self.counts.ranks = ranks::store(ranks);
        Ok(())
    }

    // The words of its line.
    fn slots(&self) -> &[u32]
        ensures { result.now ≡ slots_in self.now.words }
    {
        &self.words[Client::ITEMS..Client::ORIGINS]
    }

    // The rank of its own line.
    fn rank(&self) -> u8
        ensures { result ≡ rank_of self.now.counts.ranks self.now.counts.line }
    {
        ranks::of_line(&self.counts.ranks, self.counts.line)
    }

    // Are the places behind the list zero, of the items and of the origins, and is the total the sum over the items?
    fn list_sound(&self) -> bool
        ensures { result ≡ list_right self.now.counts.len self.now.counts.total self.now.words }
    {
        let len = self.counts.len as usize;
        let items = &self.words[0..Client::ITEMS];
        let sum = list::total(items, len);
        let unused = list::zero_from(items, len);
        let origins = list::zero_from(&self.words[Client::ORIGINS..Client::WORDS], len);
        unused & origins & (self.counts.total == sum)
    }

    // Question 2. Every test is made whatever the others find.
    fn is_sound(&self) -> bool
        ensures answer { result ≡ sound self.now }
        ensures facts { result ≡ true → Sound self.now }
    {
        let k = &self.counts;
        if (1 <= k.n) & (k.n <= Client::LINES) {
            let own = (1 <= k.line) & (k.line <= k.n);
            let counts = (k.len as usize <= Client::ITEMS) & (k.own.taken <= Client::OTHERS);
            let right = ranks::is_sound(k.n, &k.ranks);
            let listed = self.list_sound();
            let line = line::soundness::is_sound(
                k.own.made,
                k.own,
                self.slots(),
                k.n,
                self.rank(),
                true,
            );
            let back = undo::is_sound(k.inverse, self.rank(), k.own.made);
            return own & counts & right & listed & back & line;
        }
        false
    }

    // Question 2, as the first question of a call.
    fn check_sound(&self) -> Result<(), Refusal>
        ensures { MatchResult result (λ _. Sound self.now) (λ r. SaysUnsound self.now r) }
    {
        if !self.is_sound() {
            return Err(Refusal::Unsound);
        }
        Ok(())
    }
}
