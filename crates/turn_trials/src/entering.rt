// Checkers on the bar, and hits.
use crate::scenes::{after, scene, verdict};
use std::test::Fail;

// Black holds the points where a 6 enters, so that only the 2 does.
#[test]
fn one_die_enters(rt: HostRuntime) -> Result<(), Fail> {
    let b = scene(&[(25, 1), (8, 3)], &[(6, 2), (23, 2)])?;
    assert_eq!(rt; verdict(&b, (6, 2), &[(25, 6)]), Err((15, 1)));
    assert_eq!(rt; verdict(&b, (6, 2), &[(8, 2)]), Err((15, 1)));
    assert_eq!(rt; verdict(&b, (6, 2), &[(25, 2)]), Err((16, 0)));
    assert_eq!(rt; verdict(&b, (6, 2), &[(25, 2), (8, 6)]), Err((15, 2)));
    assert_eq!(rt; verdict(&b, (6, 2), &[(25, 2), (23, 6)]), Ok(()));
    Ok(())
}

#[test]
fn two_checkers_on_the_bar(rt: HostRuntime) -> Result<(), Fail> {
    let b = scene(&[(25, 2), (13, 2)], &[(1, 2)])?;
    assert_eq!(rt; verdict(&b, (4, 3), &[(25, 4), (13, 3)]), Err((15, 2)));
    assert_eq!(rt; verdict(&b, (4, 3), &[(25, 4), (25, 3)]), Ok(()));
    assert_eq!(rt; verdict(&b, (4, 3), &[(25, 4)]), Err((16, 0)));
    let entered = after(&b, (4, 3), &[(25, 3), (25, 4)])?;
    assert_eq!(rt;
        (entered.own[25], entered.own[22], entered.own[21]),
        (0, 1, 1)
    );
    Ok(())
}

// A lone checker is hit and goes to the bar; two hold the point.
#[test]
fn a_lone_checker_is_hit(rt: HostRuntime) -> Result<(), Fail> {
    let b = scene(&[(24, 2)], &[(5, 1), (7, 2)])?;
    assert_eq!(rt; verdict(&b, (6, 4), &[(24, 6)]), Err((15, 1)));
    let hit = after(&b, (6, 4), &[(24, 4), (20, 6)])?;
    assert_eq!(rt; (hit.other[25], hit.other[5], hit.own[14]), (1, 0, 1));
    Ok(())
}

#[test]
fn no_move_from_the_bar(rt: HostRuntime) -> Result<(), Fail> {
    let b = scene(
        &[(25, 1), (6, 5)],
        &[(1, 2), (2, 2), (3, 2), (4, 2), (5, 2), (6, 2)],
    )?;
    assert_eq!(rt; verdict(&b, (5, 2), &[]), Ok(()));
    assert_eq!(rt; verdict(&b, (5, 2), &[(6, 5)]), Err((15, 1)));
    Ok(())
}
