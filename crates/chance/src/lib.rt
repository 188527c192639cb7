// Kinds of chance number: what each of them keeps, and the refusals of sums.
#![tactic(auto)]

pub mod kind;
pub mod sums;
