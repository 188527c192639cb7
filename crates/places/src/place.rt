// The place of a side.
ghost use Rattle.std.specs.Prelude.{◌≡◌, ℕ, ◌≤◌};
ghost use Rattle.board.specs.Side.{Complete};
ghost use Rattle.places.specs.Asked.{Size, PlaceOf};

use crate::ways::{count_of, ways_of};
use board::side::{CHECKERS, total};

// The place of a side from which no checker is missing.
// Stays: a type for n from 1 to 6 would ask callers to make it, and public calls take any number.
fn ranked(n: u8, side: &[u8; 26]) -> Option<usize>
    requires size { Size n }
    requires complete { Complete side.now }
    ensures { PlaceOf n side.now result }
{
    let mut left = usize::from(n);
    let mut place: usize = 0;
    // Stays: it goes over points 6 down to 1, each with what the one before left.
    for p in (1..7).rev() {
        let rest = left.checked_sub(usize::from(side[p]))?;
        place += ways_of(p, left) - ways_of(p, rest);
        left = rest;
    }
    if usize::from(side[0]) + (usize::from(n) - left) != usize::from(CHECKERS) {
        return None;
    }
    Some(place)
}

// The place of a home side with at most n checkers, for n from 1 to 6; none for any other side.
// Stays: n belongs to the table and the side to the board, and one table is asked for many sides.
pub fn place_of(n: u8, side: &[u8; 26]) -> Option<usize>
    ensures { PlaceOf n side.now result }
{
    count_of(n)?;
    if total(side) != usize::from(CHECKERS) {
        return None;
    }
    ranked(n, side)
}
