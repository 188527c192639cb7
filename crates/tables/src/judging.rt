// The best of a roll over a lent table.
ghost use Rattle.std.specs.Prelude.{◌≡◌, IfOk, MatchOption, MatchResult};
ghost use Rattle.board.specs.Position.{position};
ghost use Rattle.endings.specs.Ending.{EndingFor};
ghost use Rattle.endings.specs.Place.{place};
ghost use Rattle.places.specs.Asked.{Size};
ghost use Rattle.tables.specs.Bettering.{Bettered};
ghost use Rattle.tables.specs.Judging.{RollBest, Unjudged};
ghost use Rattle.tables.specs.Filled.{SoundBest};

use crate::ask::{ending_places, square};
use crate::lookup::{Part, after_place};
use board::board::Board;
use chance::kind::Chance;
use listing::turn::Turn;
use listing::visit::{Visit, visit_turns};
use places::place::place_of;
use places::ways::count_of;
use refusals::reason::Reason;
use refusals::refusal::Refusal;
use turns::roll::dice_of;

// Judges turns of a roller against the place of the other side, in a table for n checkers.
// Stays: no Debug, since a bound `Row: Debug` would ask more of a kind.
#[derive(Drop)]
struct Best<'a, K: Chance> {
    n: u8,
    rows: Part<'a, K::Row>,
    other: usize,
}

impl<'a, K: Chance> Visit for Best<'a, K> {
    // the best so far, none before the first turn
    type Sum = Option<K>;

    ghost step = { Bettered K.Chance };

    fn visit(&self, sum: Self::Sum, _turn: &Turn, after: &Board) -> Self::Sum {
        let Some(place) = place_of(self.n, &after.own) else {
            return sum;
        };
        let value = after_place::<K>(self.rows, self.other, place);
        Some(sum.map_or(value, |best| best.better(value)))
    }
}

// The best of a roll in an ending for n: the first turn's after-value, bettered by that of each later turn as they are listed.
// A rule of the project: turns are judged by one function for every kind, over the lent rows.
pub fn roll_best<K: Chance>(n: u8, b: &Board, roll: (u8, u8), rows: &[K::Row]) -> Result<K, Refusal>
    ensures answer { MatchResult result (RollBest K.Chance n (position b.now) roll rows.now) (Unjudged K.Chance n (position b.now) roll rows.now) }
    ensures sound { IfOk result (SoundBest K.Chance n (position b.now) roll rows.now) }
{
    dice_of(roll)?;
    let size = count_of(n).ok_or(Refusal::plain(Reason::TableSizeOutOfRange))?;
    if !square(size, rows.len()) {
        return Err(Refusal::plain(Reason::WrongPartSize));
    }
    let (_, other) = ending_places(n, b).ok_or(Refusal::plain(Reason::NotAnEnding))?;
    let rows = Part {
        size,
        entries: rows,
    };
    let judged = Best::<K> { n, rows, other };
    let best = visit_turns(b, roll, &judged, None).map_err(|(refusal, _)| refusal)?;
    Ok(best.unwrap_or(K::lost()))
}
