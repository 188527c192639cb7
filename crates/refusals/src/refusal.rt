// A refusal as it is handed to a caller.
ghost use Rattle.std.specs.Prelude.{◌≡◌};
ghost use Rattle.refusals.specs.Fields.{plain as plainly, refusal_at_move, fields_of};
ghost use Rattle.refusals.specs.Closed.{ClosedList};

use crate::reason::Reason;
use std::fmt;

// The reason, the game and turn in play, the number of the move at fault, and the place of the line at fault; 0 where there is none.
// Stays: the 0 is what a report prints; an Option would be undone wherever the fields are asked or printed.
#[derive(Clone, Copy, PartialEq, Eq, Debug)]
pub struct Refusal {
    pub reason: Reason,
    pub game: u32,
    pub turn: u32,
    pub nth: usize,
    pub place: usize,
}

impl Refusal {
    // Refused by a call that works on no match, with no move at fault.
    pub fn plain(reason: Reason) -> Refusal
        ensures { result ≡ plainly reason }
    {
        Refusal::at_move(reason, 0)
    }

    // Refused for the nth move of a turn, counted from 1.
    pub fn at_move(reason: Reason, nth: usize) -> Refusal
        ensures { result ≡ refusal_at_move reason nth }
    {
        Refusal {
            reason,
            game: 0,
            turn: 0,
            nth,
            place: 0,
        }
    }

    // Layer, number, game, turn, move and place.
    pub fn fields(self) -> (u8, u8, u32, u32, usize, usize)
        ensures { result ≡ fields_of self }
    {
        (
            self.reason.layer().number(),
            self.reason.number(),
            self.game,
            self.turn,
            self.nth,
            self.place,
        )
    }
}

// The fields, parted by a space.
impl fmt::Display for Refusal {
    ghost use Rattle.std.specs.Prelude.{Some};
    ghost use Rattle.refusals.specs.Texts.{refusal_text};

    ghost output = { λ refusal. Some (refusal_text refusal) };

    fn fmt<W: fmt::Write>(&self, f: &mut fmt::Formatter<W>) -> fmt::Result {
        let (layer, number, game, turn, nth, place) = self.fields();
        write!(f, "{layer} {number} {game} {turn} {nth} {place}")
    }
}

// The list is closed: its numbers go from 1 to 32, and each names one reason.
pub fn numbers_stand()
    ensures { ClosedList }
{}
