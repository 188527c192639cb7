// The listing of a roll.
use crate::scenes::scene;
use board::board::Board;
use board::setup::start;
use listing::collect::turns_of;
use std::alloc::Global;
use std::test::Fail;

// How many turns a roll allows, or none where there is no listing.
fn count(heap: Global, b: &Board, roll: (u8, u8)) -> Option<usize> {
    turns_of(heap, b, roll).ok().map(|turns| turns.len())
}

// Counts that tools/reference_turnlist.py gives, which tries every sequence of moves.
#[test]
fn counts_on_the_start_board(rt: HostRuntime) {
    let b = start();
    assert_eq!(rt; count(rt.alloc(), &b, (3, 1)), Some(31));
    assert_eq!(rt; count(rt.alloc(), &b, (6, 6)), Some(71));
    assert_eq!(rt; count(rt.alloc(), &b, (0, 1)), None);
}

#[test]
fn larger_die_and_higher_start_first(rt: HostRuntime) -> Result<(), Fail> {
    let b = scene(&[(4, 1), (3, 1)], &[(2, 2)])?;
    let turns = turns_of(rt.alloc(), &b, (1, 2))?;
    assert!(rt; turns.len() == 7);
    assert_eq!(rt; turns[0].moves().first().copied(), Some((4, 2)));
    assert_eq!(rt; turns[0].moves().last().copied(), Some((3, 1)));
    assert_eq!(rt; turns[1].moves().last().copied(), Some((2, 1)));
    assert_eq!(rt; turns[2].moves().first().copied(), Some((3, 2)));
    assert_eq!(rt; turns[5].moves().first().copied(), Some((3, 1)));
    Ok(())
}

// The turn without moves stands alone, and only where no move is legal.
#[test]
fn no_move_is_one_turn(rt: HostRuntime) -> Result<(), Fail> {
    let b = scene(
        &[(25, 1)],
        &[(1, 2), (2, 2), (3, 2), (4, 2), (5, 2), (6, 2)],
    )?;
    let turns = turns_of(rt.alloc(), &b, (4, 3))?;
    assert!(rt; turns.len() == 1);
    assert_eq!(rt; turns[0].moves().len(), 0);
    Ok(())
}
