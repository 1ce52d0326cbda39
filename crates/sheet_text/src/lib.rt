// What the run program reads, as bytes: words, numbers and commands.
#![tactic(auto)]

ghost use Rattle.std.specs.Prelude.{◌≡◌, ◌<◌, ◌∷◌, length, SomeIff};
ghost use Rattle.std.specs.Option.{option_copied};
ghost use Rattle.sheet_text.specs.Text.{before, words_of, words_in};
ghost use Rattle.sheet_print.specs.Decimal.{too_wide, with_digit, number_of};
ghost use Rattle.sheet_text.specs.Command.{plain, with_one, with_two, verb_of, command_of};
ghost use Rattle.sheet_text.specs.Order.{coded, Says, Next};

pub mod first;

// What a line of the script orders. A client is named by its line (01: the bay), of 1 to the number of clients.
#[derive(Clone, Copy)]
pub struct Order {
    pub line: u8,
    pub verb: Verb,
}

// What is ordered of the client on a line. From `Down` on one end writes a message and the other takes it: the client takes what the server
// sends or acknowledges (`Down`, `Told`), the server what the client does (`Up`, `Ack`).
#[derive(Clone, Copy)]
pub enum Verb {
    Insert { position: u16, item: u32 },
    Delete { position: u16 },
    Down { number: u16 },
    Told,
    Up { number: u16 },
    Ack,
}

// What the line at a place of the input orders, if anything, and where the next line begins.
#[derive(Drop)]
pub struct Line {
    pub order: Option<Order>,
    pub after: usize,
}

// How many bytes stand before the first separator.
pub fn end(s: &[u8], sep: u8) -> usize
    ensures { result ≡ length (before sep s.now) }
{
    s.iter().position(|b| *b == sep).unwrap_or(s.len())
}

// The first word, and what stands behind the space after it.
pub(crate) fn first_word(s: &[u8]) -> (&[u8], Option<&[u8]>)
    ensures { words_of s.now ≡ result.0.now ∷ words_in (option_copied result.1) }
{
    let e = end(s, b' ');
    if s.len() <= e {
        return (s, None);
    }
    (&s[..e], Some(&s[e + 1..]))
}

// A number so far, and one more digit. A number has at most 32 bits.
fn with_digit(n: u32, b: u8) -> Option<u32>
    ensures { SomeIff result (with_digit n b < too_wide) (with_digit n b) }
{
    if !b.is_ascii_digit() {
        return None;
    }
    let m = u64::from(n) * 10 + u64::from(b - b'0');
    u32::try_from(m).ok()
}

// The number that a word says, of at most 32 bits.
pub fn number(w: &[u8]) -> Option<u32>
    ensures { SomeIff result (number_of w.now < too_wide) (number_of w.now) }
{
    if w.len() == 0 {
        return None;
    }
    let mut n = 0;
    for b in w {
        n = with_digit(n, *b)?;
    }
    Some(n)
}

// A verb that stands alone.
#[tactic(auto, unfolding(crate::specs::Order::coded, crate::specs::Text::same))]
fn bare(w: &[u8]) -> Option<Verb>
    ensures { Says result (λ l. plain l w.now) }
{
    if w == b"ack".as_slice() {
        return Some(Verb::Ack);
    }
    if w == b"told".as_slice() {
        return Some(Verb::Told);
    }
    None
}

// A verb with one number.
#[tactic(auto, unfolding(crate::specs::Order::coded, crate::specs::Text::same))]
fn named(w: &[u8], k: u16) -> Option<Verb>
    ensures { Says result (λ l. with_one l w.now k) }
{
    if w == b"del".as_slice() {
        return Some(Verb::Delete { position: k });
    }
    if w == b"up".as_slice() {
        return Some(Verb::Up { number: k });
    }
    if w == b"down".as_slice() {
        return Some(Verb::Down { number: k });
    }
    None
}

// A verb with a position and an item.
#[tactic(auto, unfolding(crate::specs::Order::coded, crate::specs::Text::same))]
fn with_item(w: &[u8], position: u16, item: u32) -> Option<Verb>
    ensures { Says result (λ l. with_two l w.now position item) }
{
    if w == b"ins".as_slice() {
        return Some(Verb::Insert { position, item });
    }
    None
}

// The words after a verb: one number, or two. A space in the second makes it none.
fn after_verb(w: &[u8], s: &[u8]) -> Option<Verb>
    ensures { Says result (λ l. verb_of l (w.now ∷ words_of s.now)) }
{
    let (first, rest) = first_word(s);
    let k = u16::try_from(number(first)?).ok()?;
    match rest {
        None => named(w, k),
        Some(second) => with_item(w, k, number(second)?),
    }
}

// The words after the client's line.
fn after_line(s: &[u8]) -> Option<Verb>
    ensures { Says result (λ l. verb_of l (words_of s.now)) }
{
    match first_word(s) {
        (word, None) => bare(word),
        (word, Some(rest)) => after_verb(word, rest),
    }
}

// What a line orders, of a sheet with n clients.
fn read_order(n: u8, line: &[u8]) -> Option<Order>
    ensures { result ≡ coded (command_of n line.now) }
{
    let (word, rest) = first_word(line);
    let l = u8::try_from(number(word)?).ok()?;
    if (1 <= l) & (l <= n) {
        let verb = after_line(rest?)?;
        return Some(Order { line: l, verb });
    }
    None
}

// What the line at a place orders.
pub fn line_at(input: &[u8], i: usize, n: u8) -> Line
    requires { i < length input.now }
    ensures { Next input.now i n result }
{
    let e = i + end(&input[i..], b'\n');
    let order = read_order(n, &input[i..e]);
    Line {
        order,
        after: e + 1,
    }
}
