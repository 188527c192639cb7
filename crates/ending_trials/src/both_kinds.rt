// Twenty endings for two checkers, in both kinds.
use crate::small_table::{SmallTable, filled};
use exact::number::Exact;
use fixed::range::Fixed;
use std::test::Fail;

// The points of the roller's checkers and of the other's, 0 for none; length, exact number over 36^11, ends of the fixed range.
// Stays: a table of numbers as the second reckoning gives them; an Option would only lengthen it.
type Case = ((u8, u8), (u8, u8), u64, u64, u64, u64);

const CASES: [Case; 20] = [
    ((6, 0), (1, 0), 2, 98716277881700352, 750000000, 750000000),
    ((5, 0), (1, 0), 2, 113340911641952256, 861111111, 861111112),
    ((4, 0), (1, 0), 2, 124309386962141184, 944444444, 944444445),
    ((6, 0), (6, 0), 3, 106942634371842048, 812500000, 812500000),
    (
        (3, 0),
        (6, 0),
        1,
        131621703842267136,
        1000000000,
        1000000000,
    ),
    ((6, 5), (1, 0), 2, 21936950640377856, 166666666, 166666667),
    ((6, 6), (6, 0), 4, 36713924335632384, 278935184, 278935186),
    ((6, 6), (6, 6), 9, 99307831784067072, 754494348, 754494350),
    ((4, 3), (2, 2), 4, 81338240851771392, 617969821, 617969822),
    ((2, 2), (4, 3), 3, 114356511208636416, 868827160, 868827161),
    ((5, 2), (6, 0), 4, 84904123774795776, 645061728, 645061729),
    ((6, 4), (3, 3), 6, 78294263261626368, 594843106, 594843108),
    (
        (1, 1),
        (1, 1),
        1,
        131621703842267136,
        1000000000,
        1000000000,
    ),
    ((3, 2), (4, 0), 3, 93638280048279552, 711419752, 711419754),
    ((5, 5), (2, 1), 4, 21936950640377856, 166666666, 166666667),
    ((6, 3), (6, 3), 7, 102340542106976256, 777535460, 777535462),
    ((6, 1), (5, 2), 5, 90908699484487680, 690681679, 690681681),
    ((4, 4), (6, 2), 5, 97342083900112896, 739559517, 739559519),
    (
        (2, 1),
        (6, 6),
        3,
        131621703842267136,
        1000000000,
        1000000000,
    ),
    ((6, 6), (2, 1), 4, 14624633760251904, 111111111, 111111112),
];

// Stays: a test for each kind, with its own columns of the cases.
#[test]
fn exact_chances(rt: HostRuntime) -> Result<(), Fail> {
    let table: SmallTable<Exact> = filled::<Exact>(rt.alloc(), 2)?;
    for case in &CASES {
        let (own, other, length, number, _, _) = *case;
        let got = table.asked(own, other);
        assert!(rt; got == Some((number, number, length)));
    }
    Ok(())
}

#[test]
fn fixed_ranges(rt: HostRuntime) -> Result<(), Fail> {
    let table: SmallTable<Fixed> = filled::<Fixed>(rt.alloc(), 2)?;
    for case in &CASES {
        let (own, other, length, _, lower, upper) = *case;
        let got = table.asked(own, other);
        assert!(rt; got == Some((lower, upper, length)));
    }
    Ok(())
}

// One checker on each side, in the table for one.
#[test]
fn one_checker_each(rt: HostRuntime) -> Result<(), Fail> {
    let table: SmallTable<Fixed> = filled::<Fixed>(rt.alloc(), 1)?;
    assert!(rt; table.asked((6, 0), (1, 0)) == Some((750000000, 750000000, 2)));
    assert!(rt; table.asked((6, 0), (6, 0)) == Some((812500000, 812500000, 3)));
    assert!(rt; table.asked((3, 0), (6, 0)) == Some((1000000000, 1000000000, 1)));
    assert!(rt; table.asked((6, 5), (1, 0)) == None);
    Ok(())
}
