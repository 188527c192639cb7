// What a line asks for.
use board::moves::Moves;
use board::player::Player;
use fields::sides::Sides;

// A rule of the project: rolls are pairs of numbers.
// Stays: a line that asks for nothing is read and answered like any other; an Option in the Option of `read_command` would hide that.
#[derive(Clone, Copy, Debug)]
pub enum Command {
    // the player due and the board are set
    Set(Player, Sides),
    // the turns of a roll are listed
    List((u8, u8)),
    // a turn is played with a roll
    Play((u8, u8), Moves<8>),
    // a comment or an empty line
    Nothing,
}
