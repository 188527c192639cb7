// The 21 rolls, and the places of a roll's turns.
ghost use Rattle.std.specs.Prelude.{◌≡◌, [], slice_index_or};
ghost use Rattle.endings.specs.Rolls.{rolls, weight};
ghost use Rattle.tables.specs.Moving.{place_lists};

use crate::moving::SideTurns;

// In the order in which they are summed: 1-1, 2-1, 2-2, 3-1 and so on to 6-6.
// A rule of the project: rolls are pairs of numbers.
const ROLLS: [(u8, u8); 21] = [
    (1, 1),
    (2, 1),
    (2, 2),
    (3, 1),
    (3, 2),
    (3, 3),
    (4, 1),
    (4, 2),
    (4, 3),
    (4, 4),
    (5, 1),
    (5, 2),
    (5, 3),
    (5, 4),
    (5, 5),
    (6, 1),
    (6, 2),
    (6, 3),
    (6, 4),
    (6, 5),
    (6, 6),
];

// Each roll once, as the rules list them.
pub(crate) fn all_rolls() -> [(u8, u8); 21]
    ensures { result ≡ rolls }
{
    ROLLS
}

// How many of the 36 ordered rolls are this one.
pub(crate) fn weight_of(roll: (u8, u8)) -> u64
    ensures { result ≡ weight roll }
{
    if roll.0 == roll.1 { 1 } else { 2 }
}

impl SideTurns {
    // The places to which the turns of the roll of this number lead, none past the rolls: for callers, who cannot see the lists.
    pub fn of_roll(&self, i: usize) -> &[u16]
        ensures { result.now ≡ slice_index_or (place_lists self.now) i [] }
    {
        self.lists.get(i).map_or(&[], |places| places.as_slice())
    }
}
