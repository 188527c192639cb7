// Single moves: a start and a die.
ghost use Rattle.std.specs.Prelude.{◌≡◌, ℕ, ◌<◌, ◌≤◌, cond, Decides, nat_lt};
ghost use Rattle.board.specs.Side.{Complete};
ghost use Rattle.board.specs.Position.{position};
ghost use Rattle.board.specs.Single.{Legal, hit, moved};
ghost use Rattle.board.specs.Made.{Made};

use crate::board::Board;
use crate::side::{none_above, shift};

// Whether the player due may move a checker from s by the die d.
// Stays: start and die are two numbers, since the loops over dice and points have them apart.
pub fn legal(b: &Board, s: u8, d: u8) -> bool
    ensures { Decides result (Legal (position b.now) s d) }
{
    if !(1..=6).contains(&d) || !(1..=25).contains(&s) {
        return false;
    }
    if b.own[usize::from(s)] == 0 {
        return false;
    }
    if b.own[25] > 0 && s != 25 {
        return false;
    }
    if d < s {
        return b.other[usize::from(25 - (s - d))] <= 1;
    }
    none_above(&b.own, 6) && (s == d || none_above(&b.own, s))
}

// The other side once a checker came to own point t, a hit on a lone checker there; off the board, where t is 0, it hits none.
fn landed_on(other: &[u8; 26], t: u8) -> [u8; 26]
    requires within { t ≤ 25 }
    requires complete { Complete other.now }
    ensures value { result ≡ cond (nat_lt 0 t) (hit other.now t) other.now }
    ensures complete { Complete result }
{
    if t > 0 && other[usize::from(25 - t)] == 1 {
        shift(other, 25 - t, 25)
    } else {
        *other
    }
}

// The board after a legal move.
fn apply(b: &Board, s: u8, d: u8) -> Board
    requires { Legal (position b.now) s d }
    ensures { position result ≡ moved (position b.now) s d }
{
    let t = s.saturating_sub(d);
    Board {
        own: shift(&b.own, s, t),
        other: landed_on(&b.other, t),
    }
}

// The board after the move from s by the die d, if it is legal.
pub fn make(b: &Board, s: u8, d: u8) -> Option<Board>
    ensures { Made (position b.now) s d result }
{
    legal(b, s, d).then(|| apply(b, s, d))
}
