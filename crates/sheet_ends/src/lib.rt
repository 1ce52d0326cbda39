// A server and its clients, as the run program holds them: opening them, and what an order does to the ends, in place.
#![tactic(auto)]

ghost use Rattle.std.specs.Prelude.{◌≡◌};
ghost use Rattle.limits.specs.Limits.{max_lines};
ghost use Rattle.model.specs.Ranks.{line_ranks};
ghost use Rattle.line.specs.Sending.{answered};
ghost use Rattle.sheet_ends.specs.Ends.{no_ends, opening};
ghost use Rattle.sheet_ends.specs.Orders.{client_on, sent_by, changed_by, goes_up as Orders·goes_up, Answers, done_of, opened, ordered, Placed};

use client::Client;
use refusal::Refusal;
use server::Server;
use sheet_text::{Order, Verb};

// The words of all clients together.
pub const WORDS: usize = Server::LINES * Client::WORDS;

// The server, and the clients of lines 1 to n in the first n places. A place that is not in use holds zeros.
#[derive(Drop)]
pub struct Ends {
    pub server: Server,
    pub clients: [Client; Server::LINES],
}

// Line numbers as ranks: those of n lines are the first n.
pub fn line_ranks() -> [u8; Server::LINES]
    ensures { result ≡ line_ranks max_lines }
{
    [1, 2, 3, 4, 5, 6, 7, 8]
}

// Whether the server takes what is written; else the client takes it, or edits.
fn goes_up(verb: Verb) -> bool
    ensures { result ≡ Orders·goes_up verb }
{
    match verb {
        Verb::Up { .. } | Verb::Ack => true,
        _ => false,
    }
}

// The client's own edit, or what it takes.
#[tactic(auto, unfolding(crate::specs::Orders::changed_by))]
fn at_client(c: &mut Client, verb: Verb, bytes: &[u8]) -> Result<(), Refusal>
    ensures { Answers result c.new (changed_by c.old verb bytes.now) }
{
    match verb {
        Verb::Insert { position, item } => c.insert(position, item)?,
        Verb::Delete { position } => c.delete(position)?,
        _ => {
            c.take(bytes)?;
        }
    }
    Ok(())
}

impl Ends {
    // The ends of no sheet: all zeros.
    pub fn empty() -> Ends
        ensures { result ≡ no_ends }
    {
        Ends {
            server: Server::empty(),
            clients: [Client::empty(); Server::LINES],
        }
    }

    // Opens the clients of lines 1 to n, with the ranks of these lines. Opening refuses a line past n, and leaves its client zero.
    fn open_clients(&mut self, n: u8, ranks: &[u8], items: &[u32])
        ensures { self.new ≡ record { server = self.old.server; clients = opening n ranks.now items.now 1 max_lines } }
    {
        for i in 0..Server::LINES {
            let line = (i + 1) as u8;
            let _ = self.clients[i].open(n, line, ranks, items);
        }
    }

    // Opens the server of n lines, and then its clients. What is refused opens no clients.
    pub fn open(&mut self, n: u8, ranks: &[u8], items: &[u32]) -> Result<(), Refusal>
        ensures { done_of result self.new ≡ opened self.old n ranks.now items.now }
    {
        self.server.open(n, ranks, items)?;
        self.open_clients(n, ranks, items);
        Ok(())
    }

    // What the one end of an order writes for the other. An edit writes nothing.
    #[tactic(auto, unfolding(crate::specs::Orders::sent_by))]
    fn sent(&self, o: Order, m: &mut [u8]) -> Result<usize, Refusal>
        requires { Placed o }
        ensures { answered result m.new ≡ sent_by self.now.server (client_on self.now o) o.line o.verb m.old }
    {
        let at = (o.line - 1) as usize;
        match o.verb {
            Verb::Up { number } => self.clients[at].send(o.line, number, m),
            Verb::Ack => self.clients[at].tell(o.line, m),
            Verb::Down { number } => self.server.send(o.line, number, m),
            Verb::Told => self.server.tell(o.line, m),
            Verb::Insert { .. } | Verb::Delete { .. } => Ok(0),
        }
    }

    // An order at the server and at the client of its line. What cannot be sent changes nothing.
    pub fn turn(&mut self, o: Order) -> Result<(), Refusal>
        requires { Placed o }
        ensures { done_of result self.new ≡ ordered self.old o }
    {
        let mut m = [0u8; 17];
        let n = self.sent(o, &mut m)?;
        if goes_up(o.verb) {
            self.server.take(&m[..n])?;
            return Ok(());
        }
        let at = (o.line - 1) as usize;
        at_client(&mut self.clients[at], o.verb, &m[..n])
    }
}
