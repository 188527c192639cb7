ghost use Rattle.std.specs.Prelude.{◌≡◌, ◌<◌, ◌≤◌, Decides};
ghost use Rattle.chance.specs.Sums.{Fits};
ghost use Rattle.fixed.specs.Sound.{fixed_scale, fixed_reach, Sound};
ghost use Rattle.fixed.specs.Range.{fixed_lost, fixed_won, fixed_turned, fixed_better, fixed_empty, fixed_with, fixed_added, fixed_mean, fixed_closed, FixedHeld, fixed_written, fixed_read};
ghost use Rattle.fixed.specs.Kept.{fixed_rules};

use super::{Fixed, FixedRow, FixedSum};
use chance::kind::Chance;
use chance::sums::{admit, closable};
use refusals::refusal::Refusal;

// What stands for 1, as an end.
// Stays: a cast, since a constant cannot call `try_from`.
const WHOLE: u32 = Fixed::SCALE as u32;

// Whether some value has these ends and this age.
fn sound(lower: u32, upper: u32, age: u8) -> bool
    ensures { Decides result (Sound lower upper age) }
{
    lower <= upper
        && upper <= WHOLE
        && upper - lower <= u32::from(age)
        && u64::from(age) <= Fixed::REACH
}

// A range of one number, of age 0.
fn certain(end: u32) -> Fixed
    requires { end ≤ fixed_scale }
    ensures low { result.lower ≡ end }
    ensures high { result.upper ≡ end }
    ensures new { result.age ≡ 0 }
{
    Fixed {
        lower: end,
        upper: end,
        age: 0,
    }
}

// The mean of a sum that is not too old: its lower end rounded down, its upper end up.
fn mean(sum: &FixedSum) -> Fixed
    requires { sum.now.age < fixed_reach }
    ensures { result ≡ fixed_closed sum.now }
{
    // Stays: casts, since a mean fits and `try_from` would bring a failure that cannot come.
    Fixed {
        lower: (sum.lower / 36) as u32,
        upper: sum.upper.div_ceil(36) as u32,
        age: sum.age + 1,
    }
}

impl Chance for Fixed {
    // A rule of the project: a sum is of its kind, so how it is added to and closed stands here.
    type Sum = FixedSum;

    // A rule of the project: rows are plain.
    type Row = FixedRow;

    ghost SCALE = { fixed_scale };

    ghost GRAIN = { 1 };

    ghost REACH = { fixed_reach };

    // A rule of the project: scale, grain and reach are constants of the kind.
    const SCALE: u64 = 1_000_000_000;

    const GRAIN: u64 = 1;

    const REACH: u64 = 60;

    ghost lower = { λ x. x.lower };

    ghost upper = { λ x. x.upper };

    ghost age = { λ x. x.age };

    ghost lost = { fixed_lost };

    ghost won = { fixed_won };

    ghost turned = { fixed_turned };

    ghost better = { fixed_better };

    ghost weight = { λ s. s.weight };

    ghost oldest = { λ s. s.age };

    ghost held = { FixedHeld };

    ghost empty = { fixed_empty };

    ghost added = { fixed_added };

    ghost closed = { fixed_closed };

    ghost written = { fixed_written };

    ghost read = { fixed_read };

    ghost rules = { fixed_rules };

    fn ends(self) -> (u64, u64, u64) {
        (
            u64::from(self.lower),
            u64::from(self.upper),
            u64::from(self.age),
        )
    }

    fn lost() -> Fixed {
        certain(0)
    }

    fn won() -> Fixed {
        certain(WHOLE)
    }

    fn turned(self) -> Fixed {
        Fixed {
            lower: WHOLE - self.upper,
            upper: WHOLE - self.lower,
            age: self.age,
        }
    }

    fn better(self, other: Fixed) -> Fixed {
        Fixed {
            lower: self.lower.max(other.lower),
            upper: self.upper.max(other.upper),
            age: self.age.max(other.age),
        }
    }

    fn empty() -> FixedSum {
        FixedSum {
            lower: 0,
            upper: 0,
            weight: 0,
            age: 0,
        }
    }

    // A rule of the project: each kind adds to a sum of its own.
    #[tactic(auto, using(crate::specs::Stays::with_sound, crate::specs::Kept::added_not))]
    fn add(sum: &mut FixedSum, by: u64, value: Fixed) -> Result<(), Refusal> {
        admit(sum.weight, by)?;
        *sum = FixedSum {
            lower: sum.lower + by * u64::from(value.lower),
            upper: sum.upper + by * u64::from(value.upper),
            weight: sum.weight + by,
            age: sum.age.max(value.age),
        };
        Ok(())
    }

    // A rule of the project: each kind closes its own form of sum.
    fn close(sum: &mut FixedSum) -> Result<Fixed, Refusal> {
        closable(sum.weight, u64::from(sum.age), Self::REACH)?;
        let value = mean(sum);
        *sum = Self::empty();
        Ok(value)
    }

    fn write_row(self) -> FixedRow {
        FixedRow {
            lower: self.lower,
            upper: self.upper,
            age: self.age,
        }
    }

    #[tactic(auto, using(crate::specs::Kept::row_not))]
    fn read_row(from: FixedRow) -> Fixed {
        if !sound(from.lower, from.upper, from.age) {
            return Self::lost();
        }
        Fixed {
            lower: from.lower,
            upper: from.upper,
            age: from.age,
        }
    }
}
