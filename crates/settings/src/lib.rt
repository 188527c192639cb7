// A board with the player due.
#![tactic(auto)]

pub mod placing;
pub mod setting;
pub mod turning;
