// The fixed range: both ends over 1,000,000,000, rounded outwards.
#![tactic(auto)]

pub mod range;
