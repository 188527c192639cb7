ghost use Rattle.std.specs.Prelude.{◌≡◌, ◌<◌, ◌≤◌, Decides};
ghost use Rattle.exact.specs.Sound.{exact_scale, exact_reach, unit_of, Sound};
ghost use Rattle.exact.specs.Number.{exact_lost, exact_won, exact_turned, exact_better, exact_empty, exact_added, exact_closed, ExactHeld, exact_written, exact_read};
ghost use Rattle.exact.specs.Kept.{exact_rules};

use super::{Exact, ExactRow, ExactSum};
use chance::kind::Chance;
use chance::sums::{admit, closable};
use refusals::refusal::Refusal;

// The step between the numbers of an age.
#[tactic(auto, using(crate::specs::Stays::unit_fits))]
fn unit(age: u8) -> u64
    requires { age ≤ exact_reach }
    ensures { result ≡ unit_of age }
{
    36u64.pow(11 - u32::from(age))
}

// Whether some value has this number and this age.
fn sound(number: u64, age: u8) -> bool
    ensures { Decides result (Sound number age) }
{
    number <= Exact::SCALE && u64::from(age) <= Exact::REACH && number.is_multiple_of(unit(age))
}

// The mean of a sum that is not too old, which is a whole number.
#[tactic(auto, using(crate::specs::Stays::mean_sound))]
fn mean(sum: &ExactSum) -> Exact
    requires { sum.now.age < exact_reach }
    ensures { result ≡ exact_closed sum.now }
{
    Exact {
        number: sum.number / 36,
        age: sum.age + 1,
    }
}

impl Chance for Exact {
    // A rule of the project: a sum is of its kind, so how it is added to and closed stands here.
    type Sum = ExactSum;

    // A rule of the project: rows are plain.
    type Row = ExactRow;

    ghost SCALE = { exact_scale };

    ghost GRAIN = { 0 };

    ghost REACH = { exact_reach };

    // A rule of the project: scale, here 36^11, grain and reach are constants of the kind.
    const SCALE: u64 = 131_621_703_842_267_136;

    const GRAIN: u64 = 0;

    const REACH: u64 = 11;

    ghost lower = { λ x. x.number };

    ghost upper = { λ x. x.number };

    ghost age = { λ x. x.age };

    ghost lost = { exact_lost };

    ghost won = { exact_won };

    ghost turned = { exact_turned };

    ghost better = { exact_better };

    ghost weight = { λ s. s.weight };

    ghost oldest = { λ s. s.age };

    ghost held = { ExactHeld };

    ghost empty = { exact_empty };

    ghost added = { exact_added };

    ghost closed = { exact_closed };

    ghost written = { exact_written };

    ghost read = { exact_read };

    ghost rules = { exact_rules };

    fn ends(self) -> (u64, u64, u64) {
        (self.number, self.number, u64::from(self.age))
    }

    fn lost() -> Exact {
        Exact { number: 0, age: 0 }
    }

    fn won() -> Exact {
        Exact {
            number: Self::SCALE,
            age: 0,
        }
    }

    #[tactic(auto, using(crate::specs::Stays::turned_sound))]
    fn turned(self) -> Exact {
        Exact {
            number: Self::SCALE - self.number,
            age: self.age,
        }
    }

    #[tactic(auto, using(crate::specs::Stays::better_sound))]
    fn better(self, other: Exact) -> Exact {
        Exact {
            number: self.number.max(other.number),
            age: self.age.max(other.age),
        }
    }

    fn empty() -> ExactSum {
        ExactSum {
            number: 0,
            weight: 0,
            age: 0,
        }
    }

    // A rule of the project: each kind adds to a sum of its own.
    #[tactic(auto, using(crate::specs::Stays::with_sound, crate::specs::Kept::added_not))]
    fn add(sum: &mut ExactSum, by: u64, value: Exact) -> Result<(), Refusal> {
        admit(sum.weight, by)?;
        *sum = ExactSum {
            number: sum.number + by * value.number,
            weight: sum.weight + by,
            age: sum.age.max(value.age),
        };
        Ok(())
    }

    // A rule of the project: each kind closes its own form of sum.
    fn close(sum: &mut ExactSum) -> Result<Exact, Refusal> {
        closable(sum.weight, u64::from(sum.age), Self::REACH)?;
        let value = mean(sum);
        *sum = Self::empty();
        Ok(value)
    }

    fn write_row(self) -> ExactRow {
        ExactRow {
            number: self.number,
            age: self.age,
        }
    }

    #[tactic(auto, using(crate::specs::Kept::row_not))]
    fn read_row(from: ExactRow) -> Exact {
        if !sound(from.number, from.age) {
            return Self::lost();
        }
        Exact {
            number: from.number,
            age: from.age,
        }
    }
}
