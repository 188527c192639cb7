// The unused dice of a roll.
ghost use Rattle.std.specs.Prelude.{◌≡◌, ◌≤◌, length, sum};

// Of the number d there are left[d] unused dice, and count in all, four at most.
// Stays: count is no length of left but its sum; `most` asks it at every move, where a sum made anew would say no more.
#[derive(Clone, Copy, PartialEq, Eq, Debug)]
pub struct Dice {
    pub left: [u8; 7],
    pub count: usize,
    ghost long: { length left ≡ 7 },
    ghost all: { count ≡ sum left },
    ghost few: { count ≤ 4 },
}
