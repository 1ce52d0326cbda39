// What the run program prints, as bytes, into a lent buffer. Each function takes the place of the next byte and answers the place after what it
// wrote.
#![tactic(auto)]

ghost use Rattle.std.specs.Prelude.{◌≡◌, ◌+◌, ◌*◌, ◌^◌, ◌<◌, ◌≤◌, ◌∷◌};
ghost use Rattle.sheet_print.specs.Sink.{sink, put as Sink·put, puts as Sink·puts};
ghost use Rattle.sheet_print.specs.Lines.{replied, server_list, client_list, unknown as Lines·unknown};
ghost use Rattle.sheet_print.specs.Decimal.{digits, listed, decimal as Decimal·decimal};
ghost use Rattle.sheet_print.specs.Parts.{taken, split, lower, digit_from};

// One byte. Where the buffer is full it is dropped.
fn put(out: &mut [u8], at: usize, b: u8) -> usize
    ensures { sink out.new result ≡ Sink·put b (sink out.old at) }
{
    if at < out.len() {
        out[at] = b;
        return at + 1;
    }
    at
}

// All of a text.
pub fn puts(out: &mut [u8], at: usize, s: &[u8]) -> usize
    ensures { sink out.new result ≡ Sink·puts s.now (sink out.old at) }
{
    let mut to = at;
    for b in s {
        to = put(out, to, *b);
    }
    to
}

const POWERS: [u32; 10] = [
    1,
    10,
    100,
    1_000,
    10_000,
    100_000,
    1_000_000,
    10_000_000,
    100_000_000,
    1_000_000_000,
];

fn power(k: usize) -> u32
    requires { k < 10 }
    ensures { result ≡ 10 ^ k }
{
    POWERS[k]
}

// A digit so far, and what is left of the number.
#[derive(Drop)]
struct Part {
    digit: u8,
    rest: u32,
}

// Subtracts `times` times p at once, if what is left holds that much, and adds `times` to the digit.
fn take(a: Part, p: u32, times: u8) -> Part
    requires { (a.digit < 10) × (times < 10) × (times * p < 4294967296) }
    ensures { result ≡ taken a p times }
{
    let m = times as u32 * p;
    if m <= a.rest {
        return Part {
            digit: a.digit + times,
            rest: a.rest - m,
        };
    }
    a
}

// The digit of n at the power p, and the rest, in four comparisons: every digit is a sum of some of 4, 3, 1 and 1. 4 times the highest power still has 32 bits.
fn digit_at(n: u32, p: u32) -> Part
    requires { (n < 10 * p) × (p ≤ 1000000000) }
    ensures { result ≡ split n p }
{
    let a = Part { digit: 0, rest: n };
    let b = take(a, p, 4);
    let c = take(b, p, 3);
    let d = take(c, p, 1);
    take(d, p, 1)
}

// The place of the next byte, and what is left of the number.
#[derive(Drop)]
struct Next {
    at: usize,
    rest: u32,
}

// The digit of n at the power p, where `rest` is what its higher digits leave. Where n is below p it has none.
fn put_digit(out: &mut [u8], at: usize, n: u32, rest: u32, p: u32) -> Next
    requires { (rest ≤ n) × (rest < 10 * p) × (p ≤ 1000000000) }
    ensures { (sink out.new result.at ≡ Sink·puts (digit_from p n rest) (sink out.old at)) × (result.rest ≡ (split rest p).rest) }
{
    if n < p {
        return Next { at, rest };
    }
    let d = digit_at(rest, p);
    let to = put(out, at, 48 + d.digit);
    Next {
        at: to,
        rest: d.rest,
    }
}

// The digits of n at the powers 10^from to 10^(to + 1). Those from 10^to on are left to be printed.
fn put_digits(out: &mut [u8], at: usize, n: u32, rest: u32, from: usize, to: usize) -> Next
    requires { (rest ≡ lower from n) × (to ≤ from) × (from ≤ 9) }
    ensures { (Sink·puts (digits to n) (sink out.new result.at) ≡ Sink·puts (digits from n) (sink out.old at)) × (result.rest ≡ lower to n) }
{
    let mut next = at;
    let mut left = rest;
    for k in (to + 1..from + 1).rev() {
        let d = put_digit(out, next, n, left, power(k));
        next = d.at;
        left = d.rest;
    }
    Next {
        at: next,
        rest: left,
    }
}

// The digits in front of the last three. A short number has none, which one comparison tells.
fn put_front(out: &mut [u8], at: usize, n: u32) -> Next
    ensures { (Sink·puts (digits 2 n) (sink out.new result.at) ≡ Sink·puts (Decimal·decimal n) (sink out.old at)) × (result.rest ≡ lower 2 n) }
{
    if n < 1_000 {
        return Next { at, rest: n };
    }
    put_digits(out, at, n, n, 9, 2)
}

// A number in decimal, from its highest power of ten down.
// Kept by hand, and not by Display: printing neither divides nor takes a remainder (.ci/no-division), and writes into a lent buffer.
fn decimal(out: &mut [u8], at: usize, n: u32) -> usize
    ensures { sink out.new result ≡ Sink·puts (Decimal·decimal n) (sink out.old at) }
{
    let front = put_front(out, at, n);
    let last = put_digits(out, front.at, n, front.rest, 2, 0);
    put(out, last.at, 48 + last.rest as u8)
}

// A list of items: a space before each, and the end of the line.
fn items(out: &mut [u8], at: usize, list: &[u32]) -> usize
    ensures { sink out.new result ≡ Sink·puts (listed list.now) (sink out.old at) }
{
    let mut to = at;
    for x in list {
        to = item(out, to, *x);
    }
    put(out, to, b'\n')
}

fn item(out: &mut [u8], at: usize, x: u32) -> usize
    ensures { sink out.new result ≡ Sink·puts (32 ∷ Decimal·decimal x) (sink out.old at) }
{
    let to = put(out, at, b' ');
    decimal(out, to, x)
}

// The answer to a line: a refusal's number, or 0. Most are one digit, which needs no powers of ten.
pub fn reply(out: &mut [u8], at: usize, r: u8) -> usize
    ensures { sink out.new result ≡ Sink·puts (replied r) (sink out.old at) }
{
    if r < 10 {
        let to = put(out, at, 48 + r);
        return put(out, to, b'\n');
    }
    let to = decimal(out, at, r as u32);
    put(out, to, b'\n')
}

// The answer to a line of no form.
pub fn unknown(out: &mut [u8], at: usize) -> usize
    ensures { sink out.new result ≡ Sink·puts Lines·unknown (sink out.old at) }
{
    puts(out, at, b"?\n")
}

// The server's list.
pub fn server_list(out: &mut [u8], at: usize, list: &[u32]) -> usize
    ensures { sink out.new result ≡ Sink·puts (server_list list.now) (sink out.old at) }
{
    let to = puts(out, at, b"server");
    items(out, to, list)
}

// The list of the client on a line.
pub fn client_list(out: &mut [u8], at: usize, line: u8, list: &[u32]) -> usize
    ensures { sink out.new result ≡ Sink·puts (client_list line list.now) (sink out.old at) }
{
    let to = puts(out, at, b"client ");
    let on = decimal(out, to, line as u32);
    items(out, on, list)
}
