// A board with the player due, from whom it is seen.
use board::board::Board;
use board::player::Player;

#[derive(Clone, Copy, PartialEq, Eq, Debug)]
pub struct Setting {
    pub due: Player,
    pub board: Board,
}
