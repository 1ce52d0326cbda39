// The ranks of the lines in an end's bytes: a byte each, behind the first three words.
ghost use Rattle.std.specs.Prelude.{◌≡◌, ◌≤◌, length};
ghost use Rattle.limits.specs.Limits.{max_lines};
ghost use Rattle.c_layout.specs.Words.{put_at};
ghost use Rattle.c_layout.specs.Ranks.{ranks_in};

// How many an end has, their first byte, and the words that they take. The crate ranks has the same count, but this module has its name,
// so that it can't be named here: both are limits' LINES.
pub const PLACES: usize = limits::LINES as usize;

const FIRST: usize = 12;

pub const WORDS: usize = 2;

pub fn read(bytes: &[u8]) -> [u8; PLACES]
    requires { 20 ≤ length bytes.now }
    ensures { result ≡ ranks_in bytes.now }
{
    let mut ranks = [0u8; PLACES];
    ranks.copy_from_slice(&bytes[FIRST..FIRST + PLACES]);
    ranks
}

// The same back.
pub fn write(bytes: &mut [u8], ranks: &[u8])
    requires { (20 ≤ length bytes.old) × (length ranks.now ≡ max_lines) }
    ensures { bytes.new ≡ put_at 12 ranks.now bytes.old }
{
    bytes[FIRST..FIRST + PLACES].copy_from_slice(ranks);
}
