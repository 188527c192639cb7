// The dice of a roll, and using one of them.
ghost use Rattle.std.specs.Prelude.{◌≡◌, MatchOption, MatchResult};
ghost use Rattle.refusals.specs.Fields.{plain};
ghost use Rattle.refusals.specs.declared.reason.Reason.TheVariants.{DieOutOfRange};
ghost use Rattle.board.specs.Side.{on};
ghost use Rattle.turns.specs.Roll.{Roll, rolled};
ghost use Rattle.turns.specs.Using.{Without};

use crate::dice::Dice;
use refusals::reason::Reason;
use refusals::refusal::Refusal;

// The dice of a roll: two, and four of one number where they are equal.
// A rule of the project: rolls are pairs of numbers.
pub fn dice_of(roll: (u8, u8)) -> Result<Dice, Refusal>
    ensures { MatchResult result (λ dice. Roll roll.0 roll.1 × (dice.left ≡ rolled roll.0 roll.1)) (λ e. (Roll roll.0 roll.1 → ⊥) × (e ≡ plain DieOutOfRange)) }
{
    let (x, y) = roll;
    if !(1..=6).contains(&x) || !(1..=6).contains(&y) {
        return Err(Refusal::plain(Reason::DieOutOfRange));
    }
    let mut left = [0; 7];
    if x == y {
        left[usize::from(x)] = 4;
        return Ok(Dice { left, count: 4 });
    }
    left[usize::from(x)] = 1;
    left[usize::from(y)] = 1;
    Ok(Dice { left, count: 2 })
}

impl Dice {
    // The dice without one of the number d, or none where no such die is left.
    pub fn without(&self, d: u8) -> Option<Dice>
        ensures { MatchOption result (on self.now.left d ≡ 0) (Without self.now d) }
    {
        if d > 6 || self.left[usize::from(d)] == 0 {
            return None;
        }
        let mut left = self.left;
        left[usize::from(d)] -= 1;
        Some(Dice {
            left,
            count: self.count - 1,
        })
    }
}
