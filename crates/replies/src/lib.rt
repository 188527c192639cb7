// What a command of turnlist is answered, as a value.
#![tactic(auto)]

pub mod reply;
pub mod replying;
