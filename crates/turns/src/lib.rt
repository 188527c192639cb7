// Dice, the most dice that can be used, and turns.
#![tactic(auto)]

pub mod check;
pub mod dice;
pub mod most;
pub mod roll;
