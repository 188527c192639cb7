// The fields that lines of text share, each read exactly.
#![tactic(auto)]

pub mod digits;
pub mod letters;
pub mod moves;
pub mod readings;
pub mod sides;
