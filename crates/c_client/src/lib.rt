// A client's calls over its lent bytes: question 18, the end read, the call on it, and unless it was refused the end written back. Refused, no
// byte changes. What each of them answers goes to C as one number (c_layout).
#![tactic(auto)]

pub mod layout;

ghost use Rattle.std.specs.Prelude.{◌≡◌};
ghost use Rattle.c_layout.specs.Called.{done, written, reported};
ghost use Rattle.c_client.specs.Calls.{returned, opened_in, inserted_in, deleted_in, taken_back_in, taken_in, sent_in, acknowledged_in};

use client::Client;
use line::taking::Report;
use refusal::Refusal;

// The bytes of a client.
pub const SIZE: usize = layout::SIZE;

// Opens a client of line `line` of n, with the ranks of all lines, a byte each, and the items as its list: four bytes each, high byte first.
// Refusals: 18 1 16.
pub fn open(end: &mut [u8], n: u8, line: u8, ranks: &[u8], items: &[u8]) -> Result<(), Refusal>
    ensures { returned (done result) end.new ≡ opened_in end.old n line ranks.now items.now }
{
    if end.len() < SIZE {
        return Err(Refusal::TooShort);
    }
    if items.len() % 4 != 0 {
        return Err(Refusal::Opening);
    }
    let count = items.len() / 4;
    if Client::INITIAL < count {
        return Err(Refusal::Opening);
    }
    let mut room = [0u32; Client::INITIAL];
    let list = &mut room[0..count];
    c_layout::decode_items(items, list);
    let mut client = Client::empty();
    client.open(n, line, ranks, list)?;
    layout::write(end, &client);
    Ok(())
}

// Inserts the item before the one at the position. Its priority is the rank of the line. Refusals: 18 2 9 10 11 12.
pub fn insert(end: &mut [u8], position: u16, item: u32) -> Result<(), Refusal>
    ensures { returned (done result) end.new ≡ inserted_in end.old position item }
{
    layout::check_length(end)?;
    let mut client = layout::read(end);
    client.insert(position, item)?;
    layout::write(end, &client);
    Ok(())
}

// Deletes the item at the position. Refusals: 18 2 9 11 12.
pub fn delete(end: &mut [u8], position: u16) -> Result<(), Refusal>
    ensures { returned (done result) end.new ≡ deleted_in end.old position }
{
    layout::check_length(end)?;
    let mut client = layout::read(end);
    client.delete(position)?;
    layout::write(end, &client);
    Ok(())
}

// Takes the client's latest edit back. Refusals: 18 2 17 9 10 11 12.
pub fn take_back(end: &mut [u8]) -> Result<(), Refusal>
    ensures { returned (done result) end.new ≡ taken_back_in end.old }
{
    layout::check_length(end)?;
    let mut client = layout::read(end);
    client.take_back()?;
    layout::write(end, &client);
    Ok(())
}

// Writes the message of pending edit `number`, and answers how many bytes it has. Refusals: 18 2 4 13 14.
pub fn send(end: &[u8], line: u8, number: u16, out: &mut [u8]) -> Result<u16, Refusal>
    ensures { returned (written result) out.new ≡ sent_in end.now line number out.old }
{
    layout::check_length(end)?;
    let client = layout::read(end);
    let bytes = client.send(line, number, out)?;
    Ok(bytes as u16)
}

// Writes an acknowledgement of all edits taken, and answers how many bytes it has. Refusals: 18 2 4 14.
pub fn acknowledge(end: &[u8], line: u8, out: &mut [u8]) -> Result<u16, Refusal>
    ensures { returned (written result) out.new ≡ acknowledged_in end.now line out.old }
{
    layout::check_length(end)?;
    let client = layout::read(end);
    let bytes = client.tell(line, out)?;
    Ok(bytes as u16)
}

// Takes one message from the server. Refusals: 18 2 3 4 5 6 7 8 9.
pub fn take(end: &mut [u8], message: &[u8]) -> Result<Report, Refusal>
    ensures { returned (reported result) end.new ≡ taken_in end.old message.now }
{
    layout::check_length(end)?;
    let mut client = layout::read(end);
    let report = client.take(message)?;
    layout::write(end, &client);
    Ok(report)
}
