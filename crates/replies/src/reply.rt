// The answer to a command.
use board::moves::Moves;
use listing::turn::Turn;
use refusals::refusal::Refusal;
use settings::setting::Setting;

// Stays: a refusal and nothing are answers like the others, and whoever prints them matches them so.
// A rule of the project: rolls are pairs of numbers.
#[derive(Debug, Drop)]
pub enum Reply {
    // a board was set
    Placed(Setting),
    // the allowed turns of a roll
    Listed((u8, u8), Vec<Turn>),
    // a turn of a roll was made, and the other player is due
    Made((u8, u8), Moves<8>, Setting),
    // the board stays as it was
    Refused(Refusal),
    // a comment or an empty line
    Nothing,
}
