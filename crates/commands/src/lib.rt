// The lines that the program turnlist reads.
#![tactic(auto)]

pub mod command;
pub mod reading;
