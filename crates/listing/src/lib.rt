// The allowed turns of a roll in listing order.
#![tactic(auto)]

pub mod collect;
pub mod turn;
pub mod visit;
