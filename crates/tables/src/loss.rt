// The loss of a turn.
ghost use Rattle.std.specs.Prelude.{◌≡◌};
ghost use Rattle.tables.specs.Loss.{ends_of_loss, LossHeld};

use chance::kind::Chance;

// Lower and upper end of what a turn gave away: the roll's best less the value after the turn.
// A rule of the project: losses are pairs of numbers.
pub fn loss_of<K: Chance>(best: K, after: K) -> (u64, u64)
    ensures value { result ≡ ends_of_loss K.Chance best after }
    ensures holds { LossHeld K.Chance best after result }
{
    let (best_lower, best_upper, _) = best.ends();
    let (after_lower, after_upper, _) = after.ends();
    (
        best_lower.saturating_sub(after_upper),
        best_upper.saturating_sub(after_lower),
    )
}
