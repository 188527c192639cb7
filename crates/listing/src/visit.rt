// Going through the allowed turns of a roll in listing order.
ghost use Rattle.std.specs.Prelude.{◌≡◌, ℕ, ◌+◌, ◌≤◌, List, length};
ghost use Rattle.board.specs.Position.{Position, position};
ghost use Rattle.board.specs.Moves.{moves_of};
ghost use Rattle.turns.specs.Runs.{Move};
ghost use Rattle.listing.specs.Order.{turns as listed_from, meets};
ghost use Rattle.listing.specs.Showing.{Shown, Visited, Dues};
ghost use Rattle.listing.specs.Laws.{ListingLaws};

use crate::turn::Turn;
use board::board::Board;
use board::single::make;
use refusals::refusal::Refusal;
use turns::dice::Dice;
use turns::most::{most, playable};
use turns::roll::dice_of;

// What is told of each turn, its moves and the board after it, and what is summed up of them all.
// Stays: as a closure each visitor would have its relation written out where it is made, and `step` names it once.
pub trait Visit {
    type Sum;

    // what a sum may become by a turn that is shown
    ghost step: { Self → Self.Sum → List Move → Position → Self.Sum → Type 0 };

    fn visit(&self, sum: Self::Sum, turn: &Turn, after: &Board) -> Self::Sum
        ensures { step self.now sum (moves_of turn.now) (position after.now) result };
}

// Whether a move by d to a board meets the die that is due.
fn due_met(after: &Board, due: Option<u8>, d: u8) -> bool
    ensures { result ≡ meets due (position after.now) d }
{
    due.is_none_or(|due| d == due || after.finished())
}

// Shows each turn of so many moves behind those made before, in listing order; where a die is due, each move meets it.
// Stays: each step has another board, dice, moves and sum, so a struct of them would only be made to be taken apart.
fn visit_all<V: Visit>(
    b: &Board,
    dice: &Dice,
    due: Option<u8>,
    need: usize,
    made: &Turn,
    visitor: &V,
    mut sum: V::Sum,
) -> V::Sum
    requires { length (moves_of made.now) + need ≤ 4 }
    ensures { Shown (V.step visitor.now) (moves_of made.now) (position b.now) sum (listed_from due need (position b.now) dice.now.left) result }
{
    if need == 0 || b.finished() {
        return visitor.visit(sum, made, b);
    }
    // Stays: the numbers are dice and points, not indexes, and the order of the two loops is the order of the listing.
    for d in (1..7).rev() {
        let Some(rest) = dice.without(d) else {
            continue;
        };
        for s in (1..26).rev() {
            let Some(after) = make(b, s, d) else {
                continue;
            };
            if due_met(&after, due, d) {
                let Some(more) = made.with(s, d) else {
                    unreachable!()
                };
                sum = visit_all(&after, &rest, due, need - 1, &more, visitor, sum);
            }
        }
    }
    sum
}

// The die that has to be used, if one has to be, where so many dice can be played.
fn due_die(b: &Board, roll: (u8, u8), need: usize) -> Option<u8>
    ensures { Dues (position b.now) roll.0 roll.1 need result }
{
    let (x, y) = roll;
    if need == 1 && x != y && playable(b, x) && playable(b, y) {
        Some(x.max(y))
    } else {
        None
    }
}

// Shows each allowed turn of the roll, in listing order; refused, with the first sum, where a die is outside 1 to 6.
pub fn visit_turns<V: Visit>(
    b: &Board,
    roll: (u8, u8),
    visitor: &V,
    first: V::Sum,
) -> Result<V::Sum, (Refusal, V::Sum)>
    ensures { Visited (V.step visitor.now) (position b.now) roll.0 roll.1 first result }
{
    match dice_of(roll) {
        // Stays: the first sum goes back with the refusal, and `?` would let it go.
        Err(refusal) => Err((refusal, first)),
        Ok(dice) => {
            let need = most(b, &dice);
            let due = due_die(b, roll, need);
            Ok(visit_all(b, &dice, due, need, &Turn::empty(), visitor, first))
        }
    }
}

// The listing holds exactly the allowed turns, each once and in order; there is one such list, and it is never empty.
pub fn listing_stands()
    ensures { ListingLaws }
{}
