ghost use Rattle.exact.specs.Sound.{Sound, SumSound};

pub mod kind;

// A number over 36^11, a multiple of 36^(11 - age), and the age.
// A rule of the project: the rule of its numbers is an invariant of the value's type.
#[derive(Clone, Copy, Debug, PartialEq, Eq)]
pub struct Exact {
    number: u64,
    age: u8,
    ghost ok: { Sound number age },
}

// The weighted sum of the numbers, the weight in all, and the greatest age.
#[derive(Debug, PartialEq, Eq, Drop)]
pub struct ExactSum {
    number: u64,
    weight: u64,
    age: u8,
    ghost ok: { SumSound number weight age },
}

// A number and an age, with nothing known of them.
#[derive(Clone, Copy, Debug, PartialEq, Eq)]
pub struct ExactRow {
    pub number: u64,
    pub age: u8,
}
