// A client's numbers and words from its bytes, and back.
ghost use Rattle.std.specs.Prelude.{◌≡◌, ◌++◌, ◌≤◌, length, drop};
ghost use Rattle.c_layout.specs.Called.{HasLength};
ghost use Rattle.c_client.specs.Layout.{size, counts_in, bytes_in, end_in};
ghost use Rattle.c_client.specs.Reading.{capped_counts, capped_end};

use c_layout::numbers::{LINE, in_8, in_16, line_at, put_line};
use c_layout::{get, put, ranks};
use client::{Client, Counts, Inverse};
use refusal::Refusal;

// Where each number stands, and where the words of the client begin.
const N: usize = 0;

const OF: usize = 1;

const LEN: usize = 2;

const RANKS: usize = 3;

const OWN: usize = RANKS + ranks::WORDS;

const TOTAL: usize = OWN + LINE;

const BACK: usize = TOTAL + 1;

const LOST: usize = BACK + 1;

const WORDS: usize = LOST + 1;

// The bytes of a client.
pub const SIZE: usize = 4 * (WORDS + Client::WORDS);

fn counts(bytes: &[u8]) -> Counts
    requires { size ≤ length bytes.now }
    ensures { result ≡ capped_counts (counts_in bytes.now) }
{
    let mut numbers = [0u32; WORDS];
    get(bytes, N, &mut numbers);
    let own = line_at(&numbers, OWN);
    let ranks = ranks::read(bytes);
    let total = numbers[TOTAL];
    let place = numbers[BACK];
    let item = numbers[LOST];
    let inverse = Inverse { place, item };
    Counts {
        own,
        len: in_16(numbers[LEN]),
        total,
        inverse,
        n: in_8(numbers[N]),
        line: in_8(numbers[OF]),
        ranks,
    }
}

// The client that the bytes hold.
pub fn read(bytes: &[u8]) -> Client
    requires { size ≤ length bytes.now }
    ensures { result ≡ capped_end (end_in bytes.now) }
{
    let mut words = [0u32; Client::WORDS];
    get(bytes, WORDS, &mut words);
    let counts = counts(bytes);
    Client { counts, words }
}

// Are the lent bytes enough for the client? That is question 18.
pub fn check_length(end: &[u8]) -> Result<(), Refusal>
    ensures { HasLength size end.now result }
{
    if end.len() < SIZE {
        return Err(Refusal::TooShort);
    }
    Ok(())
}

// The ranks go over the two words of the numbers that are left zero.
pub fn write(end: &mut [u8], c: &Client)
    requires { size ≤ length end.old }
    ensures { end.new ≡ bytes_in c.now ++ drop size end.old }
{
    let k = &c.counts;
    let mut numbers = [0u32; WORDS];
    numbers[N] = k.n as u32;
    numbers[OF] = k.line as u32;
    numbers[LEN] = k.len as u32;
    numbers[TOTAL] = k.total;
    numbers[BACK] = k.inverse.place;
    numbers[LOST] = k.inverse.item;
    let own = k.own;
    put_line(&mut numbers, OWN, own);
    put(end, WORDS, &c.words);
    put(end, N, &numbers);
    ranks::write(end, &k.ranks);
}
