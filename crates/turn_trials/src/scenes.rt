// Boards and answers in a form that reads well in a case.
use board::board::Board;
use board::setup::set_up;
use std::test::Fail;
use turns::check::check_turn;

// Counts on points 1 to 25 from pairs of a point and a number of checkers.
pub fn side(checkers: &[(usize, u8)]) -> [u8; 25] {
    let mut counts = [0; 25];
    for &(p, n) in checkers {
        if p >= 1 && p <= 25 {
            counts[p - 1] = n;
        }
    }
    counts
}

// The board with these checkers of the player due and of the other.
pub fn scene(own: &[(usize, u8)], other: &[(usize, u8)]) -> Result<Board, Fail> {
    Ok(set_up(&side(own), &side(other))?)
}

// Nothing for an allowed turn; number and move of the refusal of any other.
// Stays: the numbers are those by which docs/REFUSALS.md and the cases name refusals.
pub fn verdict(b: &Board, roll: (u8, u8), turn: &[(u8, u8)]) -> Result<(), (u8, usize)> {
    check_turn(b, roll, turn)
        .map(|_| ())
        .map_err(|refusal| (refusal.reason.number(), refusal.nth))
}

// The board after an allowed turn.
pub fn after(b: &Board, roll: (u8, u8), turn: &[(u8, u8)]) -> Result<Board, Fail> {
    Ok(check_turn(b, roll, turn)?)
}
