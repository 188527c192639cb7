// A turn that is stored: four moves at most.
use board::moves::Moves;

pub type Turn = Moves<4>;
