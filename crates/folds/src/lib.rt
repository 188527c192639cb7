// The best of several values, and the mean of weighted ones, over every kind.
#![tactic(auto)]

ghost use Rattle.std.specs.Prelude.{◌≡◌};
ghost use Rattle.folds.specs.Best.{best, oldest_from, BestHolds};
ghost use Rattle.folds.specs.Mean.{Mean};

use chance::kind::Chance;
use refusals::refusal::Refusal;

// The better of the values, in order, begun with the first.
pub fn best_of<K: Chance>(first: K, others: &[K]) -> K
    ensures value { result ≡ best K.Chance first others.now }
    ensures holds { BestHolds K.Chance first others.now result }
    ensures age { K.Chance.age result ≡ oldest_from K.Chance (K.Chance.age first) others.now }
{
    others
        .iter()
        .copied()
        .fold(first, |top, other| top.better(other))
}

// The values, each with its weight, added in order, and the sum closed.
pub fn mean_of<K: Chance>(parts: &[(u64, K)]) -> Result<K, Refusal>
    ensures { Mean K.Chance parts.now result }
{
    let mut sum = K::empty();
    for &(by, value) in parts {
        K::add(&mut sum, by, value)?;
    }
    K::close(&mut sum)
}
