// Whether a turn is allowed.
ghost use Rattle.std.specs.Prelude.{◌≡◌, ◌<◌, length, is_ok, Decides, MatchBool, MatchOption, ◌≢◌};
ghost use Rattle.board.specs.Side.{on, checkers, less};
ghost use Rattle.board.specs.Position.{position};
ghost use Rattle.turns.specs.Roll.{Roll};
ghost use Rattle.turns.specs.Turns.{Allowed, AsMany, Larger};
ghost use Rattle.turns.specs.Refused.{AtHand, Longer};
ghost use Rattle.turns.specs.Checked.{Walked, Checked};

use crate::dice::Dice;
use crate::most::{most, playable};
use crate::roll::dice_of;
use board::board::Board;
use board::single::make;
use refusals::reason::Reason;
use refusals::refusal::Refusal;

// The dice left for the moves behind one from s by the die d, if s is a point or the bar and d is at hand.
fn dice_behind(dice: &Dice, s: u8, d: u8) -> Option<Dice>
    ensures { MatchOption result (AtHand dice.now.left (s, d) → ⊥)
        (λ rest. AtHand dice.now.left (s, d) × (rest.left ≡ less dice.now.left d)) }
{
    if !(1..=25).contains(&s) {
        return None;
    }
    dice.without(d)
}

// Plays the moves of a turn one by one.
fn walk(b: &Board, dice: &Dice, turn: &[(u8, u8)]) -> Result<Board, Refusal>
    ensures { Walked (position b.now) dice.now.left turn.now result }
{
    let mut board = *b;
    let mut left = *dice;
    for (i, &(s, d)) in turn.iter().enumerate() {
        left = dice_behind(&left, s, d).ok_or(Refusal::at_move(Reason::NoSuchStartOrDie, i + 1))?;
        board = make(&board, s, d).ok_or(Refusal::at_move(Reason::IllegalMove, i + 1))?;
    }
    Ok(board)
}

// Whether a turn of these moves, with this board after it, bore off the last checker.
fn finished(turn: &[(u8, u8)], after: &Board) -> bool
    ensures { Decides result ((0 < length turn.now) × (on after.now.own 0 ≡ checkers)) }
{
    !turn.is_empty() && after.finished()
}

// Whether some run uses more dice than the turn.
fn too_few(b: &Board, dice: &Dice, turn: &[(u8, u8)]) -> bool
    ensures { MatchBool result (Longer (position b.now) dice.now.left turn.now) (AsMany (position b.now) dice.now.left turn.now) }
{
    turn.len() < most(b, dice)
}

// Whether a turn is one move, by the smaller of two different dice.
fn smaller_used(roll: (u8, u8), turn: &[(u8, u8)]) -> bool
    ensures { Decides result ((length turn.now ≡ 1) × (roll.0 ≢ roll.1) × (Larger roll.0 roll.1 turn.now → ⊥)) }
{
    matches!(turn, [(_, d)] if roll.0 != roll.1 && *d != roll.0.max(roll.1))
}

// The board that the turn leads to if the roll allows it, or the first refusal that applies.
// Stays: a function of its own, so that `exactly` is shown once of its answer, and not at each return.
fn judged(b: &Board, roll: (u8, u8), turn: &[(u8, u8)]) -> Result<Board, Refusal>
    ensures { Checked (position b.now) roll.0 roll.1 turn.now result }
{
    let dice = dice_of(roll)?;
    if turn.len() > dice.count {
        return Err(Refusal::plain(Reason::TooManyMoves));
    }
    let after = walk(b, &dice, turn)?;
    if finished(turn, &after) {
        return Ok(after);
    }
    if too_few(b, &dice, turn) {
        return Err(Refusal::plain(Reason::TooFewDice));
    }
    if smaller_used(roll, turn) && playable(b, roll.0) && playable(b, roll.1) {
        return Err(Refusal::plain(Reason::SmallerDie));
    }
    Ok(after)
}

// Judges a turn of the roll; the turns allowed are exactly those with a board after them.
// Stays: board, roll and turn are three parameters, since a listing has no turn and a turn is tested after its roll.
pub fn check_turn(b: &Board, roll: (u8, u8), turn: &[(u8, u8)]) -> Result<Board, Refusal>
    ensures answer { Checked (position b.now) roll.0 roll.1 turn.now result }
    ensures exactly { Decides (is_ok result) (Roll roll.0 roll.1 × Allowed (position b.now) roll.0 roll.1 turn.now) }
{
    judged(b, roll, turn)
}
