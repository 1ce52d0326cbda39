// The ranks of the lines, which say who stays in a tie: question 16, and the ranks as an end stores them.
#![tactic(auto)]

ghost use Rattle.std.specs.Prelude.{◌≡◌, ◌≤◌, length};
ghost use Rattle.limits.specs.Limits.{max_lines};
ghost use Rattle.model.specs.Ranks.{rank_of, each_once, ranking};
ghost use Rattle.ranks.specs.Stored.{stored, sound_ranks};

// How many places an end has for ranks.
pub const PLACES: usize = limits::LINES as usize;

// Is each of these 1 to n, and are no two alike? Notes the ranks that it has seen: one turn for each rank, with no branch.
fn each_once(n: u8, ranks: &[u8]) -> bool
    ensures { result ≡ each_once n ranks.now }
{
    let mut seen = [false; 256];
    let mut well = true;
    for &rank in ranks {
        let at = rank as usize;
        well &= (1 <= rank) & (rank <= n) & !seen[at];
        seen[at] = true;
    }
    well
}

// Question 16: exactly n ranks, 1 to n, each used once.
pub fn is_ranking(n: u8, ranks: &[u8]) -> bool
    ensures { result ≡ ranking n ranks.now }
{
    (ranks.len() == n as usize) & each_once(n, ranks)
}

// The ranks in the places of an end, with zeros behind them. Kept beside `pending::moved_down`: a generic copy would take type, size and
// zero, and be no shorter than the two.
pub fn store(ranks: &[u8]) -> [u8; PLACES]
    ensures { result ≡ stored ranks.now }
{
    let mut places = [0; PLACES];
    let count = ranks.len().min(PLACES);
    places[..count].copy_from_slice(&ranks[..count]);
    places
}

// Question 2 about the ranks that an end of n lines stores. Kept beside `list::zero_from`: a generic one would need a trait for OR and zero.
pub fn is_sound(n: u8, ranks: &[u8]) -> bool
    requires { (n ≤ max_lines) × (length ranks.now ≡ max_lines) }
    ensures { result ≡ sound_ranks n ranks.now }
{
    let (used, unused) = ranks.split_at(n as usize);
    each_once(n, used) & (unused.iter().fold(0, |all, rank| all | rank) == 0)
}

// The rank of a line; 0 past the last. Line 0 reads as line 1.
pub fn of_line(ranks: &[u8], line: u8) -> u8
    ensures { result ≡ rank_of ranks.now line }
{
    let at = line.saturating_sub(1) as usize;
    ranks.get(at).copied().unwrap_or(0)
}
