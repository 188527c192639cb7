// One side's counts.
ghost use Rattle.std.specs.Prelude.{◌≡◌, ℕ, ◌+◌, ◌-◌, ◌<◌, ◌≤◌, length, Decides, MatchOption, sum};
ghost use Rattle.board.specs.Side.{on, checkers, Complete, Apart, NoneAbove, counts_with_off, shifted};

// How many checkers a side has, with those borne off.
pub const CHECKERS: u8 = 15;

// How many checkers stand on all the places of a side together.
pub fn total(side: &[u8; 26]) -> usize
    ensures { result ≡ sum side.now }
{
    side.iter().map(|count| usize::from(*count)).sum()
}

// The counts on points 1 to 25 with the borne-off number in front, and none for too many checkers.
pub(crate) fn with_off(counts: &[u8; 25]) -> Option<[u8; 26]>
    ensures { MatchOption result (checkers < sum counts.now)
        (λ side. (sum counts.now ≤ checkers) × (side ≡ counts_with_off counts.now)) }
{
    let mut side = [0; 26];
    side[1..].copy_from_slice(counts);
    let off = usize::from(CHECKERS).checked_sub(total(&side))?;
    // Stays: a cast, since the number is at most 15, and `try_from` would bring a failure that cannot come.
    side[0] = off as u8;
    Some(side)
}

// Whether no point has checkers of both sides.
pub(crate) fn apart(own: &[u8; 26], other: &[u8; 26]) -> bool
    ensures { Decides result (Apart own.now other.now) }
{
    // Stays: p is a point of the one and 25 - p of the other; a zip with the reverse would hide that rule.
    !(1..25).any(|p| own[p] > 0 && other[25 - p] > 0)
}

// Whether no checker of a side stands above the place p.
pub(crate) fn none_above(side: &[u8; 26], p: u8) -> bool
    ensures { Decides result (NoneAbove side.now p) }
{
    side.iter()
        .skip(usize::from(p) + 1)
        .all(|count| *count == 0)
}

// A side after one of its checkers goes from s to t.
pub(crate) fn shift(side: &[u8; 26], s: u8, t: u8) -> [u8; 26]
    requires within { (s ≤ 25) × (t ≤ 25) }
    requires complete { Complete side.now }
    requires has { 0 < on side.now s }
    ensures value { result ≡ shifted side.now s t }
    ensures complete { Complete result }
{
    let mut side = *side;
    side[usize::from(s)] -= 1;
    side[usize::from(t)] += 1;
    side
}
