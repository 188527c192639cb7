// One entry of the table, from the places to which the roller's turns lead.
ghost use Rattle.std.specs.Prelude.{◌≡◌};
ghost use Rattle.endings.specs.Rolls.{rolls, weight};
ghost use Rattle.tables.specs.Moving.{place_lists};
ghost use Rattle.tables.specs.Sums.{entry_length, entry_value, sum_over, settled};
ghost use Rattle.tables.specs.Filled.{SoundEntry};

use crate::lookup::Part;
use crate::moving::SideTurns;
use crate::over::{best_over, length_over};
use crate::rolls::{all_rolls, weight_of};
use chance::kind::Chance;

// One roll more than the greatest length after any turn of any roll.
// Stays: the other side's place stands apart from turns and parts, since each of them serves against every place.
pub fn length_of(lengths: Part<'_, u8>, b: usize, turns: &SideTurns) -> u8
    ensures { result ≡ entry_length lengths.entry.size lengths.entry.entries.now b (place_lists turns.now) }
{
    turns
        .lists
        .iter()
        .map(|places| length_over(lengths, b, places.as_slice()))
        .fold(0, |most, length| most.max(length))
        .saturating_add(1)
}

// A sum with the best of one roll more, by its weight.
fn with_roll<K: Chance>(mut sum: K::Sum, roll: (u8, u8), best: K) -> K::Sum
    ensures { result ≡ K.Chance.added sum (weight roll) best }
{
    // The weights of the rolls fit; a weight that a sum refused would leave it as it was.
    let _ = K::add(&mut sum, weight_of(roll), best);
    sum
}

// The bests of all rolls, added by their weights.
fn sum_of_rolls<K: Chance>(rows: Part<'_, K::Row>, b: usize, turns: &SideTurns) -> K::Sum
    ensures { result ≡ sum_over K.Chance rows.entry.size rows.entry.entries.now b K.Chance.empty rolls (place_lists turns.now) }
{
    let rolls = all_rolls();
    rolls
        .iter()
        .zip(turns.lists.iter())
        .fold(K::empty(), |sum, (roll, places)| {
            with_roll::<K>(sum, *roll, best_over::<K>(rows, b, places.as_slice()))
        })
}

// The closed sum of all rolls, lost where it cannot be closed.
fn mean_of_rolls<K: Chance>(rows: Part<'_, K::Row>, b: usize, turns: &SideTurns) -> K
    ensures { result ≡ settled K.Chance rows.entry.size rows.entry.entries.now b (sum_over K.Chance rows.entry.size rows.entry.entries.now b K.Chance.empty rolls (place_lists turns.now)) }
{
    let mut sum = sum_of_rolls::<K>(rows, b, turns);
    K::close(&mut sum).unwrap_or(K::lost())
}

// Length and value of the entry of a roller with these turns against the other side's place b.
// A rule of the project: one function builds an entry, whatever the kind, on parts that are lent to it.
pub fn entry<K: Chance>(
    size: usize,
    lengths: &[u8],
    rows: &[K::Row],
    b: usize,
    turns: &SideTurns,
) -> (u8, K)
    ensures value { result ≡ (entry_length size lengths.now b (place_lists turns.now), entry_value K.Chance size rows.now b (entry_length size lengths.now b (place_lists turns.now)) (place_lists turns.now)) }
    ensures sound { SoundEntry K.Chance size b (place_lists turns.now) lengths.now rows.now result }
{
    let lengths = Part {
        size,
        entries: lengths,
    };
    let rows = Part {
        size,
        entries: rows,
    };
    let length = length_of(lengths, b, turns);
    if u64::from(length) > K::REACH {
        return (length, K::lost());
    }
    (length, mean_of_rolls::<K>(rows, b, turns))
}
