// The two players.
ghost use Rattle.std.specs.Prelude.{◌≡◌};
ghost use Rattle.board.specs.Players.{opponent, letter as letter_of};

use std::fmt;

#[derive(Clone, Copy, PartialEq, Eq, Debug)]
pub enum Player {
    White,
    Black,
}

impl Player {
    // The player on the other side of the board.
    pub fn other(self) -> Player
        ensures { result ≡ opponent self }
    {
        match self {
            Player::White => Player::Black,
            Player::Black => Player::White,
        }
    }

    // The letter that stands for the player in a text.
    pub fn letter(self) -> u8
        ensures { result ≡ letter_of self }
    {
        match self {
            Player::White => b'W',
            Player::Black => b'B',
        }
    }
}

// The player's letter.
impl fmt::Display for Player {
    ghost use Rattle.std.specs.Prelude.{Some};
    ghost use Rattle.board.specs.Players.{letter_text};

    ghost output = { λ player. Some (letter_text player) };

    fn fmt<W: fmt::Write>(&self, f: &mut fmt::Formatter<W>) -> fmt::Result {
        f.write_char(char::from(self.letter()))
    }
}
