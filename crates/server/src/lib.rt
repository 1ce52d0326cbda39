// The server's end of a sheet: its state, and opening.
#![tactic(auto)]

mod deciding;
mod packets;
mod parts;
mod sending;
mod soundness;
mod taking;
pub mod values;

ghost use Rattle.std.specs.Prelude.{◌≡◌, ◌≤◌, length, replicate};
ghost use Rattle.refusal.specs.Number.{refused_by};
ghost use Rattle.limits.specs.Limits.{max_initial};
ghost use Rattle.model.specs.Server as model;
ghost use Rattle.line.specs.Taking.{done_of};
ghost use Rattle.server.specs.View.{size, store};
ghost use Rattle.server.specs.Answers.{opened};
ghost use Rattle.server.specs.Opening.{open_asked, OpenWords};

use line::Line;
use refusal::Refusal;

// The numbers of the server.
#[derive(Clone, Copy)]
pub struct Counts {
    // how many lines are in use
    pub n: u8,
    // how many items it was opened with, and how many the list has
    pub initial: u16,
    pub len: u16,
    // the seconds of its items together
    pub total: u32,
    // the rank of line l at place l - 1, zeros past n
    pub ranks: [u8; ranks::PLACES],
    // line l at place l - 1
    pub lines: [Line; Server::LINES],
}

// All state of the server. Unused places are zero.
// Kept as arrays with their lengths beside them: the library has no heap, and C callers lend memory of this size.
#[derive(Clone, Copy)]
pub struct Server {
    pub counts: Counts,
    // the items, of which the first len are the list; then the words of each line, its pending edits; then the items' origins, and of each line
    // the origins of its pending edits
    pub words: [u32; Server::WORDS],
}

// ---- opening

// Questions 1 and 16.
fn ask_open(n: u8, ranks: &[u8], items: usize) -> Result<(), Refusal>
    ensures { refused_by result ≡ open_asked n ranks.now items }
{
    if (1 <= n) & (n as usize <= Server::LINES) & (items <= Server::INITIAL) {
        if ranks::is_ranking(n, ranks) {
            return Ok(());
        }
        return Err(Refusal::Ranks);
    }
    Err(Refusal::Opening)
}

// The initial list, with its origins, in words that are zero.
fn open_list(items: &[u32], words: &mut [u32; Server::WORDS])
    requires { (length items.now ≤ max_initial) × (words.old ≡ replicate size 0) }
    ensures { OpenWords items.now words.new }
{
    list::initial(items, &mut words[0..Server::ITEMS]);
    list::initial_origins(items.len(), &mut words[Server::ORIGINS..Server::MAKERS]);
}

impl Server {
    // The limits of the server, by name.
    pub const LINES: usize = limits::LINES as usize;

    pub const INSERTS: u16 = limits::INSERTS;

    pub const EDITS: u16 = limits::EDITS;

    pub const PENDING: usize = limits::PENDING;

    pub const ITEMS: usize = limits::ITEMS;

    pub const INITIAL: usize = limits::INITIAL;

    // Where the origins of the items begin, and those of pending edits; and the words of the server.
    pub const ORIGINS: usize = Server::ITEMS + Server::LINES * pending::WORDS;

    pub const MAKERS: usize = Server::ORIGINS + Server::ITEMS;

    pub const WORDS: usize = Server::MAKERS + Server::LINES * Server::PENDING;

    // An end that is no sheet's: all zeros, as a refused opening leaves it.
    pub fn empty() -> Server
        ensures { result ≡ store model.no_server }
    {
        let counts = Counts {
            n: 0,
            initial: 0,
            len: 0,
            total: 0,
            ranks: [0; ranks::PLACES],
            lines: [Line::default(); Server::LINES],
        };
        Server {
            counts,
            words: [0; Server::WORDS],
        }
    }

    // Opens the server of n lines, with the initial list. Refused, it is all zeros. What it held before does not matter.
    pub fn open(&mut self, n: u8, ranks: &[u8], items: &[u32]) -> Result<(), Refusal>
        ensures { done_of result self.new ≡ opened n ranks.now items.now }
    {
        *self = Server::empty();
        ask_open(n, ranks, items.len())?;
        open_list(items, &mut self.words);
        self.counts.n = n;
        self.counts.initial = items.len() as u16;
        self.counts.len = items.len() as u16;
        self.counts.total = list::total(items, items.len());
        self.counts.ranks = ranks::store(ranks);
        Ok(())
    }
}
