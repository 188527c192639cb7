// The side at a place.
ghost use Rattle.std.specs.Prelude.{◌≡◌, ℕ, ◌+◌, ◌-◌, ◌<◌, ◌≤◌};
ghost use Rattle.endings.specs.Ending.{HomeFor};
ghost use Rattle.endings.specs.Place.{place as place_of, places_of};
ghost use Rattle.places.specs.Ways.{ways};
ghost use Rattle.places.specs.Asked.{Size, SideAt};
ghost use Rattle.places.specs.Inverse.{Inverse};

use crate::ways::{count_of, ways_of};
use board::side::CHECKERS;

// How many checkers stand on point p, where at most left stand on points 1 to p and so many ways come before.
fn count_at(p: usize, left: usize, before: usize) -> usize
    requires point { (1 ≤ p) × (p ≤ 6) }
    requires few { left ≤ 6 }
    requires within { before < ways p left }
    ensures few { result ≤ left }
    ensures from { ways p left ≤ before + ways p (left - result) }
    ensures to { before + ways p (left - result) < ways p left + ways (p - 1) (left - result) }
{
    let all = ways_of(p, left);
    // Stays: for a chain the test has to be a function of its own with these three requires, and its answer needs four clauses.
    for c in 0..left {
        if before < all - ways_of(p, left - (c + 1)) {
            return c;
        }
    }
    left
}

// The home side with at most n checkers at a place that there is.
fn unranked(n: u8, place: usize) -> [u8; 26]
    requires size { Size n }
    requires within { place < places_of n }
    ensures home { HomeFor n result }
    ensures place { place ≡ place_of n result }
{
    let mut side = [0; 26];
    let mut left = usize::from(n);
    let mut before = place;
    // Stays: it goes over points 6 down to 1, each with what the one before left.
    for p in (1..7).rev() {
        let here = count_at(p, left, before);
        before -= ways_of(p, left) - ways_of(p, left - here);
        left -= here;
        // Stays: casts, here and below, since counts of at most 6 fit, and `try_from` would bring a failure that cannot come.
        side[p] = here as u8;
    }
    side[0] = CHECKERS - (n - left as u8);
    side
}

// The home side with at most n checkers at a place, for n from 1 to 6; none where there is no such place.
pub fn side_at(n: u8, place: usize) -> Option<[u8; 26]>
    ensures { SideAt n place result }
{
    let count = count_of(n)?;
    if place >= count {
        return None;
    }
    Some(unranked(n, place))
}

// The place of a side and the side at a place are inverse to each other.
pub fn inverse_stands()
    ensures { Inverse }
{}
