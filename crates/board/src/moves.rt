// The moves of a turn, in a fixed place.
ghost use Rattle.std.specs.Prelude.{◌≤◌};

pub mod list;

// The first `count` of N moves, each a start and a die; what stands behind them means nothing.
// Stays: an array with its count, since the library has no list in place that is copied like a number, as a turn that is shown has to be.
// It has no equality: that would read what stands behind the last move.
#[derive(Clone, Copy, Debug)]
pub struct Moves<const N: usize> {
    list: [(u8, u8); N],
    count: usize,
    ghost few: { count ≤ N },
}
