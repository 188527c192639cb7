// Bearing off.
use crate::scenes::{after, scene, verdict};
use std::test::Fail;

#[test]
fn a_larger_die_from_a_lower_point(rt: HostRuntime) -> Result<(), Fail> {
    let b = scene(&[(4, 2), (2, 1)], &[(1, 2)])?;
    assert_eq!(rt; verdict(&b, (6, 5), &[(4, 6), (4, 5)]), Ok(()));
    let off = after(&b, (6, 5), &[(4, 6), (4, 5)])?;
    assert_eq!(rt; (off.own[0], off.own[2]), (14, 1));
    Ok(())
}

#[test]
fn refused_while_one_is_behind(rt: HostRuntime) -> Result<(), Fail> {
    let b = scene(&[(5, 1), (2, 2)], &[(1, 2)])?;
    assert_eq!(rt; verdict(&b, (4, 3), &[(2, 4)]), Err((15, 1)));
    let away = scene(&[(7, 1), (2, 2)], &[(1, 2)])?;
    assert_eq!(rt; verdict(&away, (2, 1), &[(2, 2)]), Err((15, 1)));
    assert_eq!(rt; verdict(&away, (2, 1), &[(7, 1), (2, 2)]), Ok(()));
    Ok(())
}

// With its last checker off a side has played, though a die is left over.
#[test]
fn the_last_checker_with_a_die_left_over(rt: HostRuntime) -> Result<(), Fail> {
    let b = scene(&[(2, 1)], &[(1, 2)])?;
    assert_eq!(rt; verdict(&b, (2, 1), &[(2, 2)]), Ok(()));
    assert_eq!(rt; verdict(&b, (2, 1), &[(2, 1), (1, 2)]), Ok(()));
    assert_eq!(rt; verdict(&b, (2, 1), &[(2, 1)]), Err((16, 0)));
    assert_eq!(rt; verdict(&b, (6, 6), &[(2, 6)]), Ok(()));
    assert_eq!(rt; verdict(&b, (6, 6), &[(2, 6), (2, 6)]), Err((15, 2)));
    Ok(())
}

// Either die bears it off, and the smaller may be used.
#[test]
fn the_last_checker_with_the_smaller_die(rt: HostRuntime) -> Result<(), Fail> {
    let b = scene(&[(1, 1)], &[(1, 2)])?;
    assert_eq!(rt; verdict(&b, (6, 5), &[(1, 5)]), Ok(()));
    assert_eq!(rt; verdict(&b, (6, 5), &[(1, 6)]), Ok(()));
    Ok(())
}
