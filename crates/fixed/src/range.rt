ghost use Rattle.fixed.specs.Sound.{Sound, SumSound};

pub mod kind;

// Both ends over 1,000,000,000, and the age.
// A rule of the project: the rule of its numbers is an invariant of the value's type.
#[derive(Clone, Copy, Debug, PartialEq, Eq)]
pub struct Fixed {
    lower: u32,
    upper: u32,
    age: u8,
    ghost ok: { Sound lower upper age },
}

// The weighted sums of both ends, the weight in all, and the greatest age.
#[derive(Debug, PartialEq, Eq, Drop)]
pub struct FixedSum {
    lower: u64,
    upper: u64,
    weight: u64,
    age: u8,
    ghost ok: { SumSound lower upper weight age },
}

// Both ends and the age, with nothing known of them.
#[derive(Clone, Copy, Debug, PartialEq, Eq)]
pub struct FixedRow {
    pub lower: u32,
    pub upper: u32,
    pub age: u8,
}
