// The place of a home side, and the side at a place.
#![tactic(auto)]

pub mod place;
pub mod side;
pub mod ways;
