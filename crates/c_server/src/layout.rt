// The server's numbers and words from its bytes, and back.
ghost use Rattle.std.specs.Prelude.{◌≡◌, ◌++◌, ◌*◌, ◌≤◌, length, drop, replicate};
ghost use Rattle.c_layout.specs.Called.{HasLength};
ghost use Rattle.c_server.specs.Layout.{size, numbers, counts_in, bytes_in, end_in};
ghost use Rattle.c_server.specs.Reading.{capped_counts, capped_end, numbers_in, front_in};

use c_layout::numbers::{LINE, in_8, in_16, line_at, put_line};
use c_layout::{get, put, ranks};
use line::Line;
use refusal::Refusal;
use server::{Counts, Server};

// Where each number stands, and where the words of the server begin.
const N: usize = 0;

const INITIAL: usize = 1;

const LEN: usize = 2;

const RANKS: usize = 3;

const LINES: usize = RANKS + ranks::WORDS;

const TOTAL: usize = LINES + LINE * Server::LINES;

pub const WORDS: usize = TOTAL + 1;

// The bytes of the server.
pub const SIZE: usize = 4 * (WORDS + Server::WORDS);

// The numbers that the bytes hold. They are read and written by calls of their own, and the words where a call is made: there they are a copy of
// memory.
#[inline(never)]
pub fn counts(bytes: &[u8]) -> Counts
    requires { size ≤ length bytes.now }
    ensures { result ≡ capped_counts (counts_in bytes.now) }
{
    let mut numbers = [0u32; WORDS];
    get(bytes, N, &mut numbers);
    let none = Line {
        made: 0,
        taken: 0,
        acked: 0,
        inserts: 0,
    };
    let mut lines = [none; Server::LINES];
    // Kept as a loop: with array::from_fn the proof did not get each line from what from_fn says of its closure's calls.
    for i in 0..Server::LINES {
        let at = LINES + LINE * i;
        lines[i] = line_at(&numbers, at);
    }
    let ranks = ranks::read(bytes);
    Counts {
        n: in_8(numbers[N]),
        initial: in_16(numbers[INITIAL]),
        len: in_16(numbers[LEN]),
        total: numbers[TOTAL],
        ranks,
        lines,
    }
}

// The numbers as words, but for the ranks.
fn put_counts(k: Counts, words: &mut [u32])
    requires { words.old ≡ replicate numbers 0 }
    ensures { words.new ≡ numbers_in k }
{
    words[N] = k.n as u32;
    words[INITIAL] = k.initial as u32;
    words[LEN] = k.len as u32;
    words[TOTAL] = k.total;
    for (i, v) in k.lines.iter().enumerate() {
        put_line(words, LINES + LINE * i, *v);
    }
}

// The numbers go to the bytes, and the ranks over the two words of them that are left zero.
#[inline(never)]
pub fn write_counts(bytes: &mut [u8], k: Counts)
    requires { size ≤ length bytes.old }
    ensures { bytes.new ≡ front_in k ++ drop (4 * numbers) bytes.old }
{
    let mut numbers = [0u32; WORDS];
    put_counts(k, &mut numbers);
    put(bytes, N, &numbers);
    ranks::write(bytes, &k.ranks);
}

// The server that the bytes hold, into one that the caller has: by value its 10 KB would be copied once more.
#[inline(always)]
pub fn read(bytes: &[u8], s: &mut Server)
    requires { size ≤ length bytes.now }
    ensures { s.new ≡ capped_end (end_in bytes.now) }
{
    get(bytes, WORDS, &mut s.words);
    s.counts = counts(bytes);
}

// Are the lent bytes enough for the server? That is question 18.
pub fn check_length(end: &[u8]) -> Result<(), Refusal>
    ensures { HasLength size end.now result }
{
    if end.len() < SIZE {
        return Err(Refusal::TooShort);
    }
    Ok(())
}

// The same back.
#[inline(always)]
pub fn write(end: &mut [u8], s: &Server)
    requires { size ≤ length end.old }
    ensures { end.new ≡ bytes_in s.now ++ drop size end.old }
{
    put(end, WORDS, &s.words);
    let counts = s.counts;
    write_counts(end, counts);
}
