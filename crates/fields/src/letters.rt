// The letters of the players.
ghost use Rattle.std.specs.Prelude.{[], ◌∷◌};
ghost use Rattle.fields.specs.Exact.{Exact, Any};
ghost use Rattle.board.specs.Players.{letter_text};

use board::player::Player;

// The player that a letter stands for.
pub fn player_of(byte: u8) -> Option<Player>
    ensures { Exact Any letter_text (byte ∷ []) result }
{
    [Player::White, Player::Black]
        .into_iter()
        .find(|player| player.letter() == byte)
}
