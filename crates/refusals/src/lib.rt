// Why a call is refused, and what a refusal bears.
#![tactic(auto)]

pub mod failure;
pub mod layer;
pub mod reason;
pub mod refusal;
