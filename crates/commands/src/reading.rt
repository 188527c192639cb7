// Commands read from the bytes of a line, its end left out.
ghost use Rattle.fields.specs.Exact.{Exact, OneReading};
ghost use Rattle.commands.specs.Plays.{FinePlay, play_text, play_shown};
ghost use Rattle.commands.specs.Forms.{Fine, text, form_of};
ghost use Rattle.commands.specs.Silence.{NothingExactly};

use crate::command::Command;
use board::moves::Moves;
use fields::digits::dice;
use fields::moves::read_moves;
use fields::sides::setting;

// Dice and moves of a play.
fn play(fields: &[u8]) -> Option<((u8, u8), Moves<8>)>
    ensures { Exact FinePlay play_text fields.now (play_shown result) }
{
    let (roll, moves) = fields.split_at_checked(3)?;
    Some((dice(roll)?, read_moves(moves)?))
}

// The command that the bytes are the text of, or none.
pub fn read_command(bytes: &[u8]) -> Option<Command>
    ensures { Exact Fine text bytes.now (form_of bytes.now result) }
{
    let Some((letter, fields)) = bytes.split_first() else {
        return Some(Command::Nothing);
    };
    match letter {
        b'S' => {
            let (player, sides) = setting(fields)?;
            Some(Command::Set(player, sides))
        }
        b'L' => dice(fields).map(Command::List),
        b'P' => {
            let (roll, moves) = play(fields)?;
            Some(Command::Play(roll, moves))
        }
        b'#' => Some(Command::Nothing),
        _ => None,
    }
}

// Two exact readings of the same line are equal, and one that asks for nothing is empty or a comment; the theorems are in the contract.
pub fn one_reading()
    ensures one { OneReading Fine text }
    ensures nothing { NothingExactly }
{}
