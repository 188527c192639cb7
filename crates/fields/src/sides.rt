// The sides of a board, a hex digit to a point.
ghost use Rattle.std.specs.Prelude.{[], ◌∷◌};
ghost use Rattle.fields.specs.Exact.{Exact};
ghost use Rattle.fields.specs.Sides.{FineCount, count_text, FineSide, side_text, FineSides, sides_text, sides_shown, FineSetting, setting_text, setting_shown};

use crate::digits::digit;
use crate::letters::player_of;
use board::player::Player;

// White's and Black's counts on points 1 to 24 and the bar.
#[derive(Clone, Copy, PartialEq, Eq, Debug)]
pub struct Sides {
    pub white: [u8; 25],
    pub black: [u8; 25],
}

// A count of checkers.
pub fn count_of(byte: u8) -> Option<u8>
    ensures { Exact FineCount count_text (byte ∷ []) result }
{
    match byte {
        b'a'..=b'f' => Some(byte - b'a' + 10),
        _ => digit(byte),
    }
}

// A side in 25 counts.
pub fn side(bytes: &[u8]) -> Option<[u8; 25]>
    ensures { Exact FineSide side_text bytes.now result }
{
    let digits: [u8; 25] = bytes.try_into().ok()?;
    // Stays: each count is put where its digit stands; with `try_map` a line that sets a board took twice as long.
    let mut counts = [0; 25];
    for (i, digit) in digits.iter().enumerate() {
        counts[i] = count_of(*digit)?;
    }
    Some(counts)
}

// Both sides of a board, White's first, with a space between them.
fn both(bytes: &[u8]) -> Option<Sides>
    ensures { Exact FineSides sides_text bytes.now (sides_shown result) }
{
    let (white, rest) = bytes.split_at_checked(25)?;
    let (space, black) = rest.split_first()?;
    if *space != b' ' {
        return None;
    }
    // Black's first: where a line is too long or too short, that side has the wrong size.
    Some(Sides {
        black: side(black)?,
        white: side(white)?,
    })
}

// A player and both sides of a board, each behind a space.
pub fn setting(bytes: &[u8]) -> Option<(Player, Sides)>
    ensures { Exact FineSetting setting_text bytes.now (setting_shown result) }
{
    let [b' ', letter, b' ', rest @ ..] = bytes else {
        return None;
    };
    Some((player_of(*letter)?, both(rest)?))
}
