// Settings before any turn, and their sides by player.
ghost use Rattle.std.specs.Prelude.{◌≡◌, is_ok, Decides, MatchResult};
ghost use Rattle.refusals.specs.declared.reason.Reason.TheVariants.{BoardRuleBroken};
ghost use Rattle.refusals.specs.Fields.{plain};
ghost use Rattle.board.specs.Setup.{Rule};
ghost use Rattle.settings.specs.Settings.{Shows, side_of, opening as opened, arranged};

use crate::setting::Setting;
use board::board::Board;
use board::player::Player;
use board::setup::{set_up, start};
use refusals::refusal::Refusal;

impl Setting {
    // The start board with White due.
    pub fn opening() -> Setting
        ensures { Shows result opened }
    {
        Setting {
            due: Player::White,
            board: start(),
        }
    }

    // The board with White's and Black's counts on points 1 to 25, refused where they break the board's rule.
    pub fn place(due: Player, white: &[u8; 25], black: &[u8; 25]) -> Result<Setting, Refusal>
        ensures rule { Decides (is_ok result) (Rule white.now black.now) }
        ensures answer { MatchResult result (λ s. Shows s (arranged due white.now black.now)) (λ e. e ≡ plain BoardRuleBroken) }
    {
        let (own, other) = match due {
            Player::White => (white, black),
            Player::Black => (black, white),
        };
        set_up(own, other).map(|board| Setting { due, board })
    }

    // A player's side.
    pub fn side(&self, player: Player) -> &[u8; 26]
        ensures { result.now ≡ side_of self.now player }
    {
        if player == self.due {
            &self.board.own
        } else {
            &self.board.other
        }
    }
}
