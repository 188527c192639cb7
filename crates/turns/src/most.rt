// The most dice of a roll that can be used.
ghost use Rattle.std.specs.Prelude.{◌≡◌, ℕ, ◌+◌, ◌<◌, ◌≤◌, Decides};
ghost use Rattle.board.specs.Position.{position};
ghost use Rattle.turns.specs.Runs.{Most};
ghost use Rattle.turns.specs.Turns.{Playable};

use crate::dice::Dice;
use board::board::Board;
use board::single::{legal, make};

// The most dice that a run on the board can use.
pub fn most(b: &Board, dice: &Dice) -> usize
    ensures most { Most (position b.now) dice.now.left result }
    ensures few { result ≤ dice.now.count }
{
    // A rule of the project: every legal move is made, and the same is asked of the board behind it.
    // Stays: the search ends with the best so far once it uses all dice, which no chain tells as plainly.
    let mut best: usize = 0;
    for d in 1..7 {
        let Some(rest) = dice.without(d) else {
            continue;
        };
        for s in 1..26 {
            let Some(after) = make(b, s, d) else {
                continue;
            };
            best = best.max(1 + most(&after, &rest));
            if best == dice.count {
                return best;
            }
        }
    }
    best
}

// Whether the die d alone can be played.
pub fn playable(b: &Board, d: u8) -> bool
    ensures { Decides result (Playable (position b.now) d) }
{
    (1..26).any(|s| legal(b, s, d))
}
