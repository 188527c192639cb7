// The answers to lines, one after another.
ghost use Rattle.std.specs.Prelude.{◌≡◌, OnOk, OnErr};
ghost use Rattle.turnlist.specs.Session.{Fresh, left_by, AfterLine, CutShort};

use crate::text::{ListedTurn, MadeMove, ShownSetting, expected};
use commands::reading::read_command;
use listing::turn::Turn;
use replies::reply::Reply;
use replies::replying::reply;
use settings::setting::Setting;
use std::alloc::{AllocError, Global};
use std::fmt::Write;

// The board and player due, what is to be printed, and whether a line had no known form.
// Stays: the flag tells of the whole input, and stands for no value that is there or not.
#[derive(Debug, Drop)]
pub struct Session {
    setting: Setting,
    pub out: String,
    pub faulty: bool,
}

// A roll's allowed turns: how many, and each on a line.
// Stays: a Display of all its lines would be a type for one use; each line has its own.
fn listed_lines(out: &mut String, roll: (u8, u8), turns: &[Turn]) -> Result<(), AllocError> {
    let (a, b) = roll;
    let count = turns.len();
    writeln!(out, "L {a}{b} {count}")?;
    for turn in turns {
        writeln!(out, "{}", ListedTurn(turn.moves()))?;
    }
    Ok(())
}

// A turn that was made: each move on a line.
// Stays: a Display of all its lines would be a type for one use; each line has its own.
fn made_lines(out: &mut String, roll: (u8, u8), moves: &[(u8, u8)]) -> Result<(), AllocError> {
    let (a, b) = roll;
    writeln!(out, "P {a}{b}")?;
    for (start, die) in moves {
        writeln!(out, " {}", MadeMove(*start, *die))?;
    }
    Ok(())
}

// What a reply prints.
// Stays: the answers have no Display of their own, since most print several lines or none.
fn reply_lines(out: &mut String, reply: &Reply) -> Result<(), AllocError> {
    match reply {
        Reply::Placed(_) | Reply::Nothing => Ok(()),
        Reply::Listed(roll, turns) => listed_lines(out, *roll, turns.as_slice()),
        Reply::Made(roll, moves, after) => {
            made_lines(out, *roll, moves.moves())?;
            writeln!(out, "{}", ShownSetting(after))
        }
        Reply::Refused(refusal) => writeln!(out, "F {refusal}"),
    }
}

// Leaves the setting as a reply does; where it stays, nothing is copied.
fn leave(setting: &mut Setting, reply: &Reply)
    ensures { setting.new ≡ left_by setting.old reply.now }
{
    match reply {
        Reply::Placed(after) | Reply::Made(_, _, after) => *setting = *after,
        Reply::Listed(_, _) | Reply::Refused(_) | Reply::Nothing => {}
    }
}

impl Session {
    // Before any line.
    pub fn new(heap: Global) -> Session
        ensures { Fresh result }
    {
        Session {
            setting: Setting::opening(),
            out: String::new(heap),
            faulty: false,
        }
    }

    // Answers the nth line. What it prints is tested, and no clause tells of it.
    pub fn answer(&mut self, heap: Global, line: &[u8], n: usize) -> Result<(), AllocError>
        ensures ok { OnOk result (AfterLine line.now self.old self.new) }
        ensures err { OnErr result (CutShort line.now self.old self.new) }
    {
        let Some(command) = read_command(line) else {
            self.faulty = true;
            return writeln!(self.out, "E {n} expected {}", expected(line));
        };
        let reply = reply(heap, &self.setting, &command)?;
        leave(&mut self.setting, &reply);
        reply_lines(&mut self.out, &reply)
    }
}
