// Reading the first line: how many clients, and the initial items.
ghost use Rattle.std.specs.Prelude.{◌≡◌, ◌++◌, ◌∷◌, [], take};
ghost use Rattle.sheet_text.specs.Text.{words_of};
ghost use Rattle.sheet_text.specs.Opening.{max_held, with_items, after_number as Opening·after_number, after_lines, opening_of, Reads};

use crate::{first_word, number};
use arrayvec::ArrayVec;

// What a first line says. Of its items it holds at most 129, one more than an opening may have, so that opening still refuses.
#[derive(Drop)]
pub struct First {
    pub n: u8,
    pub items: ArrayVec<u32, 129>,
}

// The items, each a word.
fn items(n: u8, s: &[u8]) -> Option<First>
    ensures { Reads (with_items n (words_of s.now)) result }
{
    let mut items = ArrayVec::new();
    let mut left = Some(s);
    while let Some(words) = left {
        let (word, rest) = first_word(words);
        let x = number(word)?;
        if items.len() < 129 {
            items.push(x);
        }
        left = rest;
    }
    Some(First { n, items })
}

// The words after the number of clients.
#[tactic(auto, unfolding(crate::specs::Text::same))]
fn after_number(n: u8, s: &[u8]) -> Option<First>
    ensures { Reads (Opening·after_number n (words_of s.now)) result }
{
    let (word, rest) = first_word(s);
    if word != b"items".as_slice() {
        return None;
    }
    match rest {
        None => Some(First {
            n,
            items: ArrayVec::new(),
        }),
        Some(words) => items(n, words),
    }
}

// The words after `lines`.
fn after_lines(s: &[u8]) -> Option<First>
    ensures { Reads (after_lines (words_of s.now)) result }
{
    let (word, rest) = first_word(s);
    let n = u8::try_from(number(word)?).ok()?;
    after_number(n, rest?)
}

// What the first line says.
#[tactic(auto, unfolding(crate::specs::Opening::opening_of, crate::specs::Text::same))]
pub fn read_first(line: &[u8]) -> Option<First>
    ensures { Reads (opening_of line.now) result }
{
    let (word, rest) = first_word(line);
    if word != b"lines".as_slice() {
        return None;
    }
    after_lines(rest?)
}
