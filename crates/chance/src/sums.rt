// When a sum takes a weight, and when it can be closed: the same for every kind.
ghost use Rattle.std.specs.Prelude.{◌≡◌};
ghost use Rattle.chance.specs.Sums.{Admits, Closable};

use refusals::reason::Reason;
use refusals::refusal::Refusal;

// Whether a sum of this weight takes another.
pub fn admit(weight: u64, by: u64) -> Result<(), Refusal>
    ensures { Admits weight by result }
{
    if !(1..=36).contains(&by) || weight > 36 - by {
        return Err(Refusal::plain(Reason::WeightOutOfRange));
    }
    Ok(())
}

// Whether a sum of this weight and greatest age can be closed.
pub fn closable(weight: u64, oldest: u64, reach: u64) -> Result<(), Refusal>
    ensures { Closable weight oldest reach result }
{
    if weight < 36 {
        return Err(Refusal::plain(Reason::SumNotFull));
    }
    if oldest >= reach {
        return Err(Refusal::plain(Reason::SumTooOld));
    }
    Ok(())
}
