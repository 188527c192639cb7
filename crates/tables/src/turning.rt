// Listing where the turns of a side lead.
ghost use Rattle.std.specs.Prelude.{◌≡◌, ◌<◌, map, IfOk, MatchResult};
ghost use Rattle.board.specs.Position.{position};
ghost use Rattle.turns.specs.Roll.{Roll};
ghost use Rattle.endings.specs.Ending.{Home, HomeFor};
ghost use Rattle.endings.specs.Rolls.{rolls};
ghost use Rattle.places.specs.Asked.{Size};
ghost use Rattle.tables.specs.Moving.{place_lists};
ghost use Rattle.tables.specs.Led.{Kept, places_led_to, facing, Unturned};

use crate::moving::SideTurns;
use crate::rolls::all_rolls;
use board::board::Board;
use listing::turn::Turn;
use listing::visit::{Visit, visit_turns};
use places::place::place_of;
use places::ways::count_of;
use refusals::failure::Failure;
use refusals::reason::Reason;
use refusals::refusal::Refusal;
use std::alloc::{AllocError, Global};

// Puts the place of the side after each turn behind those before; a side that has none is passed over.
#[derive(Debug, Drop)]
struct Led {
    n: u8,
}

impl Visit for Led {
    // once memory fell short, nothing more is collected
    type Sum = Result<Vec<u16>, AllocError>;

    ghost step = { λ v. Kept v.n };

    fn visit(&self, sum: Self::Sum, _turn: &Turn, after: &Board) -> Self::Sum {
        let mut places = sum?;
        if let Some(place) = place_of(self.n, &after.own) {
            // Stays: a cast, since 924 places fit and `try_from` would bring a failure that cannot come.
            places.push(place as u16)?;
        }
        Ok(places)
    }
}

// The places to which the turns of one roll lead a home side, in listing order.
fn roll_places(heap: Global, n: u8, b: &Board, roll: (u8, u8)) -> Result<Vec<u16>, AllocError>
    requires size { Size n }
    requires home { HomeFor n (position b.now).own }
    requires roll { Roll roll.0 roll.1 }
    ensures { IfOk result (λ v. v.items ≡ places_led_to n (position b.now) roll) }
{
    match visit_turns(b, roll, &Led { n }, Ok(Vec::new(heap))) {
        Ok(places) => places,
        // Stays: the roll is one of dice, so it is not refused, and there is no error to hand on.
        Err(_) => unreachable!(),
    }
}

// The places to which the turns of each roll lead it.
fn all_places(heap: Global, n: u8, b: &Board) -> Result<SideTurns, AllocError>
    requires size { Size n }
    requires home { HomeFor n (position b.now).own }
    ensures { IfOk result (λ t. place_lists t ≡ map (places_led_to n (position b.now)) rolls) }
{
    let rolls = all_rolls();
    let mut lists = Vec::new(heap);
    for roll in &rolls {
        lists.push(roll_places(heap, n, b, *roll)?)?;
    }
    Ok(SideTurns { lists })
}

// The side against itself, an ending unless it is empty.
fn mirrored(side: &[u8; 26]) -> Board
    requires { Home side.now }
    ensures { position result ≡ facing side.now }
{
    Board {
        own: *side,
        other: *side,
    }
}

// Where the turns of each roll lead a home side with at most n checkers.
pub fn turn_places(heap: Global, n: u8, side: &[u8; 26]) -> Result<SideTurns, Failure>
    ensures { MatchResult result (λ t. Size n × HomeFor n side.now × (place_lists t ≡ map (places_led_to n (facing side.now)) rolls)) (Unturned n side.now) }
{
    count_of(n).ok_or(Refusal::plain(Reason::TableSizeOutOfRange))?;
    place_of(n, side).ok_or(Refusal::plain(Reason::NotAnEnding))?;
    Ok(all_places(heap, n, &mirrored(side))?)
}
