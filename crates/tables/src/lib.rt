// One entry of the table of endings, over its lent parts and any kind of chance number.
#![tactic(auto)]

pub mod ask;
pub mod entry;
pub mod judging;
pub mod lookup;
pub mod loss;
pub mod moving;
pub mod over;
pub mod rolls;
pub mod turning;
