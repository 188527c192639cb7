// The moves of a turn, each a start and a die.
ghost use Rattle.fields.specs.Exact.{Exact};
ghost use Rattle.fields.specs.Moves.{FineMove, move_text, FineMoves, moves_text, shown};

use crate::digits::digit;
use board::moves::Moves;

// One move behind its space.
pub fn one_move(bytes: &[u8]) -> Option<(u8, u8)>
    ensures { Exact FineMove move_text bytes.now result }
{
    let [b' ', a, b, d] = bytes else {
        return None;
    };
    Some((10 * digit(*a)? + digit(*b)?, digit(*d)?))
}

// The moves of a turn, with nothing behind them.
pub fn read_moves(bytes: &[u8]) -> Option<Moves<8>>
    ensures { Exact FineMoves moves_text bytes.now (shown result) }
{
    let mut moves = Moves::empty();
    for field in bytes.chunks(4) {
        let (start, die) = one_move(field)?;
        moves = moves.with(start, die)?;
    }
    Some(moves)
}
