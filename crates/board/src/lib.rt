// Players, boards and single moves.
#![tactic(auto)]

pub mod board;
pub mod moves;
pub mod player;
pub mod setup;
pub mod side;
pub mod single;
