// The start board, boards from counts, and a board from its other side.
ghost use Rattle.std.specs.Prelude.{◌≡◌, length, is_ok, Decides, MatchResult};
ghost use Rattle.refusals.specs.Fields.{plain};
ghost use Rattle.board.specs.Position.{position, swapped};
ghost use Rattle.board.specs.Setup.{Rule, placed, start_side};
ghost use Rattle.refusals.specs.declared.reason.Reason.TheVariants.{BoardRuleBroken};

use crate::board::Board;
use crate::side::{apart, with_off};
use refusals::reason::Reason;
use refusals::refusal::Refusal;

// The board on which a game opens.
pub fn start() -> Board
    ensures { position result ≡ record { own = start_side; other = start_side } }
{
    let mut side = [0; 26];
    side[24] = 2;
    side[13] = 5;
    side[8] = 3;
    side[6] = 5;
    Board {
        own: side,
        other: side,
    }
}

// The board with these counts on points 1 to 25, refused where they break the board's rule.
// Stays: two sides' counts are two parameters, since they are what a caller has before there is a board.
pub fn set_up(own: &[u8; 25], other: &[u8; 25]) -> Result<Board, Refusal>
    ensures rule { Decides (is_ok result) (Rule own.now other.now) }
    ensures answer { MatchResult result (λ b. position b ≡ placed own.now other.now) (λ e. e ≡ plain BoardRuleBroken) }
{
    match (with_off(own), with_off(other)) {
        (Some(own), Some(other)) if apart(&own, &other) => Ok(Board { own, other }),
        _ => Err(Refusal::plain(Reason::BoardRuleBroken)),
    }
}

// The same board from the other player.
pub fn turned(b: &Board) -> Board
    ensures { position result ≡ swapped (position b.now) }
{
    Board {
        own: b.other,
        other: b.own,
    }
}
