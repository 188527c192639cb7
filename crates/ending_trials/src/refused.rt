// Refusals of asking, and the loss of a turn.
use crate::small_table::{SmallTable, counts, filled};
use board::setup::set_up;
use fixed::range::Fixed;
use places::place::place_of;
use std::test::Fail;
use tables::ask::ask;
use tables::judging::roll_best;
use tables::lookup::{Part, after_place};
use tables::loss::loss_of;

// The number of the refusal, none for an answer.
// Stays: the numbers are those by which docs/REFUSALS.md and the cases name refusals.
fn number(n: u8, own: &[u8; 25], other: &[u8; 25], table: &SmallTable<Fixed>) -> Option<u8> {
    let lengths = table.lengths.as_slice();
    let rows = table.rows.as_slice();
    let refusal = ask::<Fixed>(n, own, other, lengths, rows).err()?;
    Some(refusal.reason.number())
}

#[test]
fn refusals_of_asking(rt: HostRuntime) -> Result<(), Fail> {
    let table: SmallTable<Fixed> = filled::<Fixed>(rt.alloc(), 2)?;
    let one = counts((1, 0));
    assert_eq!(rt; number(0, &one, &one, &table), Some(10));
    assert_eq!(rt; number(7, &one, &one, &table), Some(10));
    assert_eq!(rt; number(3, &one, &one, &table), Some(11));
    assert_eq!(rt; number(2, &counts((7, 0)), &one, &table), Some(18));
    assert_eq!(rt; number(2, &counts((0, 0)), &one, &table), Some(18));
    assert_eq!(rt; number(2, &counts((6, 5)), &one, &table), None);
    Ok(())
}

// 4 and 3 against two on 2 with 2-1, played to two on 2: 80/1296 is given away.
#[test]
fn loss_of_a_turn(rt: HostRuntime) -> Result<(), Fail> {
    let table: SmallTable<Fixed> = filled::<Fixed>(rt.alloc(), 2)?;
    let board = set_up(&counts((4, 3)), &counts((2, 2)))?;
    let best = roll_best::<Fixed>(2, &board, (2, 1), table.rows.as_slice())?;
    let two_on_two = place_of(2, &board.other).ok_or("no place")?;
    let rows = Part {
        size: 28,
        entries: table.rows.as_slice(),
    };
    let after = after_place::<Fixed>(rows, two_on_two, two_on_two);
    assert_eq!(rt; loss_of::<Fixed>(best, after), (61_728_393, 61_728_397));
    Ok(())
}
