// The numbers of an end in its words: a word as a number of 8 or 16 bits, and the counts of a line.
ghost use Rattle.std.specs.Prelude.{◌≡◌, ◌+◌, ◌≤◌, length};
ghost use Rattle.c_layout.specs.Words.{put_at};
ghost use Rattle.c_layout.specs.Numbers.{capped, capped_line, line_at, line_words};

use line::Line;

// The words of a line's counts.
pub const LINE: usize = 4;

// A word that is too wide becomes the widest number, which question 2 then refuses.
// Kept as two: a generic one would only rename the library's two calls, and would be lent the widest number beside the word.
pub fn in_8(x: u32) -> u8
    ensures { result ≡ capped 255 x }
{
    u8::try_from(x).unwrap_or(u8::MAX)
}

pub fn in_16(x: u32) -> u16
    ensures { result ≡ capped 65535 x }
{
    u16::try_from(x).unwrap_or(u16::MAX)
}

// The counts of a line, from word `at` on. Kept as a function: Line is another crate's, so no From of words can stand here.
pub fn line_at(words: &[u32], at: usize) -> Line
    requires { at + 4 ≤ length words.now }
    ensures { result ≡ capped_line (line_at words.now at) }
{
    Line {
        made: in_16(words[at]),
        taken: in_16(words[at + 1]),
        acked: in_16(words[at + 2]),
        inserts: in_16(words[at + 3]),
    }
}

// The same back.
pub fn put_line(words: &mut [u32], at: usize, v: Line)
    requires { at + 4 ≤ length words.old }
    ensures { words.new ≡ put_at at (line_words v) words.old }
{
    words[at..at + LINE].copy_from_slice(&[
        u32::from(v.made),
        u32::from(v.taken),
        u32::from(v.acked),
        u32::from(v.inserts),
    ]);
}
