// Dice that have to be used.
use crate::scenes::{scene, verdict};
use std::test::Fail;

// From 13 either die can be played, but not both: Black holds 2.
#[test]
fn either_die_but_not_both(rt: HostRuntime) -> Result<(), Fail> {
    let b = scene(&[(13, 1)], &[(23, 2)])?;
    assert_eq!(rt; verdict(&b, (6, 5), &[(13, 6)]), Ok(()));
    assert_eq!(rt; verdict(&b, (5, 6), &[(13, 5)]), Err((17, 0)));
    assert_eq!(rt; verdict(&b, (6, 5), &[]), Err((16, 0)));
    Ok(())
}

// One order of the dice plays both, so that the other is refused.
#[test]
fn both_dice_in_one_order(rt: HostRuntime) -> Result<(), Fail> {
    let b = scene(&[(24, 1), (7, 2)], &[(2, 2), (12, 2), (19, 2)])?;
    assert_eq!(rt; verdict(&b, (6, 1), &[(24, 6), (18, 1)]), Ok(()));
    assert_eq!(rt; verdict(&b, (6, 1), &[(7, 1)]), Err((15, 1)));
    assert_eq!(rt; verdict(&b, (6, 1), &[(24, 6)]), Err((16, 0)));
    Ok(())
}

#[test]
fn two_of_a_double(rt: HostRuntime) -> Result<(), Fail> {
    let b = scene(&[(18, 1)], &[(22, 2)])?;
    assert_eq!(rt;
        verdict(&b, (5, 5), &[(18, 5), (13, 5), (8, 5)]),
        Err((15, 3))
    );
    assert_eq!(rt; verdict(&b, (5, 5), &[(18, 5), (13, 5)]), Ok(()));
    assert_eq!(rt; verdict(&b, (5, 5), &[(18, 5)]), Err((16, 0)));
    Ok(())
}

#[test]
fn three_of_a_double(rt: HostRuntime) -> Result<(), Fail> {
    let b = scene(&[(24, 1)], &[(21, 2)])?;
    assert_eq!(rt;
        verdict(&b, (5, 5), &[(24, 5), (19, 5), (14, 5), (9, 5)]),
        Err((15, 4))
    );
    assert_eq!(rt; verdict(&b, (5, 5), &[(24, 5), (19, 5), (14, 5)]), Ok(()));
    assert_eq!(rt; verdict(&b, (5, 5), &[(24, 5), (19, 5)]), Err((16, 0)));
    Ok(())
}
