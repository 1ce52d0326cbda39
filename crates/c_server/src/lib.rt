// The server's calls over its lent bytes: question 18, the end read, the call on it, and unless it was refused the end written back. Refused, no
// byte changes. What each of them answers goes to C as one number (c_layout).
#![tactic(auto)]

pub mod layout;

ghost use Rattle.std.specs.Prelude.{◌≡◌};
ghost use Rattle.c_layout.specs.Called.{done, written, reported};
ghost use Rattle.c_server.specs.Calls.{returned, opened_in, taken_in, sent_in, acknowledged_in};

use line::taking::Report;
use refusal::Refusal;
use server::Server;

// The bytes of the server.
pub const SIZE: usize = layout::SIZE;

// Opens a sheet of n lines, with the ranks of all lines, a byte each, and the items as its list: four bytes each, high byte first.
// Refusals: 18 1 16.
pub fn open(end: &mut [u8], n: u8, ranks: &[u8], items: &[u8]) -> Result<(), Refusal>
    ensures { returned (done result) end.new ≡ opened_in end.old n ranks.now items.now }
{
    if end.len() < SIZE {
        return Err(Refusal::TooShort);
    }
    if items.len() % 4 != 0 {
        return Err(Refusal::Opening);
    }
    let count = items.len() / 4;
    if Server::INITIAL < count {
        return Err(Refusal::Opening);
    }
    let mut room = [0u32; Server::INITIAL];
    let list = &mut room[0..count];
    c_layout::decode_items(items, list);
    let mut server = Server::empty();
    server.open(n, ranks, list)?;
    layout::write(end, &server);
    Ok(())
}

// Writes the message of pending edit `number` of a line, and answers how many bytes it has. Refusals: 18 2 4 13 14.
pub fn send(end: &[u8], line: u8, number: u16, out: &mut [u8]) -> Result<u16, Refusal>
    ensures { returned (written result) out.new ≡ sent_in end.now line number out.old }
{
    layout::check_length(end)?;
    let mut server = Server::empty();
    layout::read(end, &mut server);
    let bytes = server.send(line, number, out)?;
    Ok(bytes as u16)
}

// Writes an acknowledgement of the edits taken on a line, and answers how many bytes it has. Refusals: 18 2 4 14.
pub fn acknowledge(end: &[u8], line: u8, out: &mut [u8]) -> Result<u16, Refusal>
    ensures { returned (written result) out.new ≡ acknowledged_in end.now line out.old }
{
    layout::check_length(end)?;
    let mut server = Server::empty();
    layout::read(end, &mut server);
    let bytes = server.tell(line, out)?;
    Ok(bytes as u16)
}

// Takes one message of a client. Refusals: 18 2 3 4 5 6 7 8 9 10 12.
pub fn take(end: &mut [u8], message: &[u8]) -> Result<Report, Refusal>
    ensures { returned (reported result) end.new ≡ taken_in end.old message.now }
{
    layout::check_length(end)?;
    let mut server = Server::empty();
    layout::read(end, &mut server);
    let report = server.take(message)?;
    layout::write(end, &server);
    Ok(report)
}
