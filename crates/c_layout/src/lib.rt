// Lent bytes as words and back, four bytes to a word. The words of an end have their low byte first, opening items their high byte first.
#![tactic(auto)]

pub mod numbers;
pub mod ranks;

ghost use Rattle.std.specs.Prelude.{ℕ, ◌≡◌, ◌+◌, ◌*◌, ◌≤◌, List, length};
ghost use Rattle.list.specs.Parts.{part};
ghost use Rattle.c_layout.specs.Words.{Order, high_first, word_at, words_by, words_of, items_of, bytes_of, put_at};
ghost use Rattle.c_layout.specs.Called.{packed, packed_report, report_of, done, written, reported, counted};

use line::taking::{Report, Stopped};
use refusal::Refusal;

// The words of bytes, each of the four bytes that a closure makes it of. The order f is what the closure is known to keep to.
fn decode_by<F: Fn([u8; 4]) -> u32>(bytes: &[u8], words: &mut [u32], word: F)
    requires sized { length bytes.now ≡ 4 * length words.old }
    requires calls { F.IsAlwaysCallable word }
    ensures { (f : Order) → ((b : List ℕ) (x : ℕ) → F.post word b x → x ≡ word_at f b 0) → words.new ≡ words_by f bytes.now }
{
    let (fours, _) = bytes.as_chunks::<4>();
    for (i, four) in fours.iter().enumerate() {
        words[i] = word(*four);
    }
}

// The words of bytes, low byte first.
fn decode(bytes: &[u8], words: &mut [u32])
    requires { length bytes.now ≡ 4 * length words.old }
    ensures { words.new ≡ words_of bytes.now }
{
    decode_by(bytes, words, u32::from_le_bytes);
}

// An opening item. Its bytes are turned round once they are one word, so that the load stands alone and a loop over items is vectorised.
fn item_in(four: [u8; 4]) -> u32
    ensures { result ≡ word_at high_first four 0 }
{
    u32::from_le_bytes(four).swap_bytes()
}

// Opening items.
pub fn decode_items(bytes: &[u8], words: &mut [u32])
    requires { length bytes.now ≡ 4 * length words.old }
    ensures { words.new ≡ items_of bytes.now }
{
    decode_by(bytes, words, item_in);
}

// The bytes of words.
fn encode(words: &[u32], bytes: &mut [u8])
    requires { length bytes.old ≡ 4 * length words.now }
    ensures { bytes.new ≡ bytes_of words.now }
{
    for (i, word) in words.iter().enumerate() {
        let at = 4 * i;
        bytes[at..at + 4].copy_from_slice(&word.to_le_bytes());
    }
}

// The words of an end from word `from` on, as many as are lent.
pub fn get(bytes: &[u8], from: usize, words: &mut [u32])
    requires { 4 * (from + length words.old) ≤ length bytes.now }
    ensures { words.new ≡ part from (length words.old) (words_of bytes.now) }
{
    let at = 4 * from;
    let end = at + 4 * words.len();
    decode(&bytes[at..end], words);
}

// The words go to the end's bytes, from word `from` on.
pub fn put(bytes: &mut [u8], from: usize, words: &[u32])
    requires { 4 * (from + length words.now) ≤ length bytes.old }
    ensures { bytes.new ≡ put_at (4 * from) (bytes_of words.now) bytes.old }
{
    let at = 4 * from;
    let end = at + 4 * words.len();
    encode(words, &mut bytes[at..end]);
}

// What an exported call returns: the refusal, and the count or length beside it. Kept as numbers in one: it goes to C.
pub fn answer(refusal: u8, count: u16) -> u64
    ensures { result ≡ packed refusal count }
{
    refusal as u64 + 256 * count as u64
}

// Of a call that has nothing to report.
pub fn done(r: Result<(), Refusal>) -> u64
    ensures { result ≡ done r }
{
    match r {
        Ok(()) => answer(0, 0),
        Err(refusal) => answer(refusal.number(), 0),
    }
}

// Of a sending, how many bytes it wrote.
pub fn written(r: Result<u16, Refusal>) -> u64
    ensures { result ≡ written r }
{
    match r {
        Ok(bytes) => answer(0, bytes),
        Err(refusal) => answer(refusal.number(), 0),
    }
}

// The refusal and a report: the count as `answer` has it, and above it the positions in which the edit arrived and was applied.
pub fn report(refusal: u8, k: Report) -> u64
    ensures { result ≡ packed_report refusal (report_of k) }
{
    answer(refusal, k.passed) + 16777216 * k.arrived as u64 + 1099511627776 * k.applied as u64
}

// Of a taking, its report.
pub fn reported(r: Result<Report, Refusal>) -> u64
    ensures { result ≡ reported r }
{
    match r {
        Ok(k) => report(0, k),
        Err(refusal) => answer(refusal.number(), 0),
    }
}

// Of a packet, how many of its messages were taken, beside a refusal too.
pub fn counted(r: Result<u16, Stopped>) -> u64
    ensures { result ≡ counted r }
{
    match r {
        Ok(messages) => answer(0, messages),
        Err(stopped) => answer(stopped.refusal.number(), stopped.taken),
    }
}
