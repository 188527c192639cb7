// Answering a command.
ghost use Rattle.std.specs.Prelude.{IfOk, IfErr};
ghost use Rattle.turns.specs.Roll.{Roll};
ghost use Rattle.board.specs.Moves.{moves_of};
ghost use Rattle.replies.specs.Replies.{SettingReply, ListingReply, PlayReply, Replied, NeedsMemory};

use crate::reply::Reply;
use board::moves::Moves;
use board::player::Player;
use commands::command::Command;
use fields::sides::Sides;
use listing::collect::turns_of;
use refusals::failure::Failure;
use settings::setting::Setting;
use std::alloc::{AllocError, Global};

// A board as an answer: set, or refused.
// A call of its own, as are the two below: an answer is then written where it is wanted, and one that says nothing copies no board.
#[inline(never)]
fn placed(due: Player, sides: &Sides) -> Reply
    ensures { SettingReply due sides.now.white sides.now.black result }
{
    Setting::place(due, &sides.white, &sides.black).map_or_else(Reply::Refused, Reply::Placed)
}

// The listing of a roll as an answer: a refusal becomes one, and want of memory stays a failure.
// Stays: no `?` does both.
#[inline(never)]
fn listed(heap: Global, setting: &Setting, roll: (u8, u8)) -> Result<Reply, AllocError>
    ensures answer { IfOk result (ListingReply setting.now roll.0 roll.1) }
    ensures memory { IfErr result (λ _. Roll roll.0 roll.1) }
{
    match turns_of(heap, &setting.board, roll) {
        Ok(turns) => Ok(Reply::Listed(roll, turns)),
        Err(Failure::Refused(refusal)) => Ok(Reply::Refused(refusal)),
        Err(Failure::NoMemory) => Err(AllocError),
    }
}

// A turn of a roll as an answer: made, or refused.
// Stays: tried with `map_or_else`, as where a board is set, and the proof did not close.
#[inline(never)]
fn played(setting: &Setting, roll: (u8, u8), moves: &Moves<8>) -> Reply
    ensures { PlayReply setting.now roll.0 roll.1 (moves_of moves.now) result }
{
    match setting.make_turn(roll, moves.moves()) {
        Ok(after) => Reply::Made(roll, *moves, after),
        Err(refusal) => Reply::Refused(refusal),
    }
}

// The answer to a command on a setting, unless memory falls short.
pub fn reply(heap: Global, setting: &Setting, command: &Command) -> Result<Reply, AllocError>
    ensures answer { IfOk result (Replied setting.now command.now) }
    ensures memory { IfErr result (λ _. NeedsMemory command.now) }
{
    match command {
        Command::Set(due, sides) => Ok(placed(*due, sides)),
        Command::List(roll) => listed(heap, setting, *roll),
        Command::Play(roll, moves) => Ok(played(setting, *roll, moves)),
        Command::Nothing => Ok(Reply::Nothing),
    }
}
