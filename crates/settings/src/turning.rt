// A turn played on a setting.
ghost use Rattle.std.specs.Prelude.{◌≡◌};
ghost use Rattle.board.specs.Position.{position};
ghost use Rattle.settings.specs.Played.{PlayedOn};

use crate::setting::Setting;
use board::setup::turned;
use refusals::refusal::Refusal;
use turns::check::check_turn;

impl Setting {
    // The setting after the turn of the player due, with the other player due then; or the first refusal that applies.
    pub fn make_turn(&self, roll: (u8, u8), turn: &[(u8, u8)]) -> Result<Setting, Refusal>
        ensures { PlayedOn self.now roll.0 roll.1 turn.now result }
    {
        let after = check_turn(&self.board, roll, turn)?;
        Ok(Setting {
            due: self.due.other(),
            board: turned(&after),
        })
    }
}
