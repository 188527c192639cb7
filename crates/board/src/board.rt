// A board, from the player who is due.
ghost use Rattle.std.specs.Prelude.{◌≡◌, length};
ghost use Rattle.board.specs.Side.{Complete, Apart};

use crate::side::CHECKERS;

// Both sides, each in its own numbering: place 0 counts the checkers borne off, places 1 to 24 those on the points, place 25 those on the bar.
// A rule of the project: counts and disjoint points are an invariant of the type.
#[derive(Clone, Copy, PartialEq, Eq, Debug)]
pub struct Board {
    pub own: [u8; 26],
    pub other: [u8; 26],
    ghost long: { length own ≡ 26 },
    ghost wide: { length other ≡ 26 },
    ghost complete: { Complete own },
    ghost others: { Complete other },
    ghost apart: { Apart own other },
}

impl Board {
    ghost use Rattle.std.specs.Prelude.{◌≡◌, ◌==◌};
    ghost use Rattle.board.specs.Side.{on, checkers};

    // Whether the player due has borne off the last checker.
    pub fn finished(&self) -> bool
        ensures { result ≡ (on self.now.own 0 == checkers) }
    {
        self.own[0] == CHECKERS
    }
}
