// The listing as a list.
ghost use Rattle.std.specs.Prelude.{MatchResult};
ghost use Rattle.board.specs.Position.{position};
ghost use Rattle.turns.specs.Roll.{Roll};
ghost use Rattle.listing.specs.Collecting.{Noted, Holding, Unlisted};

use crate::turn::Turn;
use crate::visit::{Visit, visit_turns};
use board::board::Board;
use refusals::failure::Failure;
use std::alloc::{AllocError, Global};

// Puts each turn behind those collected before; once memory fell short, nothing more is collected.
#[derive(Debug, Drop)]
struct Collect;

impl Visit for Collect {
    type Sum = Result<Vec<Turn>, AllocError>;

    ghost step = { λ _. Noted };

    fn visit(&self, sum: Self::Sum, turn: &Turn, _after: &Board) -> Self::Sum {
        let mut turns = sum?;
        turns.push(*turn)?;
        Ok(turns)
    }
}

// The allowed turns of the roll, in listing order.
// Stays: a heap is handed in wherever memory is needed, as the library does, and is no part of what it stands beside.
pub fn turns_of(heap: Global, b: &Board, roll: (u8, u8)) -> Result<Vec<Turn>, Failure>
    ensures { MatchResult result (λ v. Roll roll.0 roll.1 × Holding (position b.now) roll.0 roll.1 v.items) (Unlisted roll.0 roll.1) }
{
    // Stays: with `map_err` one failure told as the other would be a wrong type and no wrong answer; the arms say more.
    match visit_turns(b, roll, &Collect, Ok(Vec::new(heap))) {
        Ok(turns) => Ok(turns?),
        Err((refusal, _)) => Err(refusal.into()),
    }
}
