// The best value and the greatest length over the places that a roll's turns lead to.
ghost use Rattle.std.specs.Prelude.{◌≡◌};
ghost use Rattle.tables.specs.Parts.{best_place, most_length};

use crate::lookup::{Part, after_place};
use chance::kind::Chance;

// The better of the after-values in order, begun with the first; lost where there is no place.
pub fn best_over<K: Chance>(rows: Part<'_, K::Row>, b: usize, places: &[u16]) -> K
    ensures { result ≡ best_place K.Chance rows.entry.size rows.entry.entries.now b places.now }
{
    let values = places
        .iter()
        .map(|q| after_place::<K>(rows, b, usize::from(*q)));
    values
        .reduce(|best, value| best.better(value))
        .unwrap_or(K::lost())
}

// The greatest length after a turn.
pub fn length_over(lengths: Part<'_, u8>, b: usize, places: &[u16]) -> u8
    ensures { result ≡ most_length lengths.entry.size lengths.entry.entries.now b places.now }
{
    places
        .iter()
        .map(|q| lengths.after_length(b, usize::from(*q)))
        .fold(0, |most, length| most.max(length))
}
