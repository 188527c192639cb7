// Boards, and what breaks their rule.
use crate::scenes::side;
use board::setup::{set_up, start, turned};
use std::test::Fail;

#[test]
fn start_board(rt: HostRuntime) {
    let b = start();
    assert_eq!(rt; (b.own[24], b.own[13], b.own[8], b.own[6]), (2, 5, 3, 5));
    assert_eq!(rt; (b.own[0], b.other[24], b.other[0]), (0, 2, 0));
}

#[test]
fn the_rule_of_a_board(rt: HostRuntime) {
    assert!(rt; set_up(&side(&[(6, 15)]), &side(&[])).is_ok());
    assert!(rt; set_up(&side(&[(6, 15), (1, 1)]), &side(&[])).is_err());
    assert!(rt; set_up(&side(&[]), &side(&[(6, 10), (2, 6)])).is_err());
    assert!(rt; set_up(&side(&[(6, 1)]), &side(&[(19, 1)])).is_err());
    assert!(rt; set_up(&side(&[(6, 1)]), &side(&[(18, 1)])).is_ok());
    assert!(rt; set_up(&side(&[(25, 1)]), &side(&[(25, 1)])).is_ok());
}

#[test]
fn borne_off_and_turned(rt: HostRuntime) -> Result<(), Fail> {
    let b = set_up(&side(&[(3, 4)]), &side(&[(5, 1), (25, 2)]))?;
    assert_eq!(rt; (b.own[0], b.other[0]), (11, 12));
    let t = turned(&b);
    assert_eq!(rt; (t.own[25], t.own[5], t.other[3]), (2, 1, 4));
    Ok(())
}
