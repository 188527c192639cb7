// The exact kind: one number over 36^11, with nothing rounded.
#![tactic(auto)]

pub mod number;
