// Asking a table for an ending.
ghost use Rattle.std.specs.Prelude.{◌≡◌, ◌*◌, length, Decides, MatchOption, MatchResult};
ghost use Rattle.board.specs.Position.{position};
ghost use Rattle.board.specs.Side.{counts_with_off};
ghost use Rattle.endings.specs.Ending.{EndingFor};
ghost use Rattle.endings.specs.Place.{place, places_of};
ghost use Rattle.places.specs.Asked.{Size};
ghost use Rattle.tables.specs.Asking.{AskedEnding, Answered, Unanswered};

use crate::lookup::{Part, value_at};
use board::board::Board;
use board::setup::set_up;
use board::side::CHECKERS;
use chance::kind::Chance;
use places::place::place_of;
use places::ways::count_of;
use refusals::reason::Reason;
use refusals::refusal::Refusal;

// Whether a part has an entry for each pair of places.
pub(crate) fn square(size: usize, count: usize) -> bool
    ensures { Decides result (count ≡ size * size) }
{
    size.checked_mul(size).is_some_and(|all| count == all)
}

// The places of both sides of a board that is an ending for n, none where it is not.
// Stays: n belongs to the table, and one table is asked for many boards.
pub(crate) fn ending_places(n: u8, b: &Board) -> Option<(usize, usize)>
    ensures { MatchOption result (Size n → EndingFor n (position b.now) → ⊥) (λ ab. EndingFor n (position b.now) × (ab.0 ≡ place n (position b.now).own) × (ab.1 ≡ place n (position b.now).other)) }
{
    if b.own[0] == CHECKERS || b.other[0] == CHECKERS {
        return None;
    }
    Some((place_of(n, &b.own)?, place_of(n, &b.other)?))
}

// The same of the counts on points 1 to 25.
fn asked_places(n: u8, own: &[u8; 25], other: &[u8; 25]) -> Option<(usize, usize)>
    ensures { MatchOption result (Size n → AskedEnding n own.now other.now → ⊥) (λ ab. AskedEnding n own.now other.now × (ab.0 ≡ place n (counts_with_off own.now)) × (ab.1 ≡ place n (counts_with_off other.now))) }
{
    let board = set_up(own, other).ok()?;
    ending_places(n, &board)
}

// Lower end, upper end and age of the chance of the roller, whose counts on points 1 to 25 come first.
// A rule of the project: an ending's answer is a tuple of both ends and an age, asked of the lent parts.
pub fn ask<K: Chance>(
    n: u8,
    own: &[u8; 25],
    other: &[u8; 25],
    lengths: &[u8],
    rows: &[K::Row],
) -> Result<(u64, u64, u64), Refusal>
    ensures { MatchResult result (Answered K.Chance n own.now other.now lengths.now rows.now) (Unanswered K.Chance n own.now other.now lengths.now rows.now) }
{
    let size = count_of(n).ok_or(Refusal::plain(Reason::TableSizeOutOfRange))?;
    if !square(size, lengths.len()) || !square(size, rows.len()) {
        return Err(Refusal::plain(Reason::WrongPartSize));
    }
    let (a, b) = asked_places(n, own, other).ok_or(Refusal::plain(Reason::NotAnEnding))?;
    // Stays: parts are named in full, here, in `entry` and in `roll_best`; a call that made one would take the same names.
    let lengths = Part {
        size,
        entries: lengths,
    };
    let rows = Part {
        size,
        entries: rows,
    };
    if u64::from(lengths.length_at(a, b)) > K::REACH {
        return Err(Refusal::plain(Reason::PastReach));
    }
    Ok(value_at::<K>(rows, a, b).ends())
}
