// Refusals in their order.
use crate::scenes::{scene, verdict};
use board::setup::start;
use refusals::reason::Reason;
use refusals::refusal::Refusal;
use std::test::Fail;

#[test]
fn dice_come_first(rt: HostRuntime) {
    let b = start();
    assert_eq!(rt;
        verdict(&b, (7, 1), &[(99, 9), (0, 0), (8, 3)]),
        Err((4, 0))
    );
    assert_eq!(rt; verdict(&b, (1, 0), &[]), Err((4, 0)));
    assert_eq!(rt;
        verdict(&b, (3, 1), &[(99, 9), (0, 0), (8, 3)]),
        Err((13, 0))
    );
    assert_eq!(rt;
        verdict(&b, (3, 3), &[(8, 3), (8, 3), (6, 3), (6, 3), (6, 3)]),
        Err((13, 0))
    );
}

// A move that is not legal comes before a later one that cannot be.
#[test]
fn moves_one_by_one(rt: HostRuntime) {
    let b = start();
    assert_eq!(rt; verdict(&b, (3, 1), &[(7, 3), (99, 1)]), Err((15, 1)));
    assert_eq!(rt; verdict(&b, (3, 1), &[(8, 3), (99, 1)]), Err((14, 2)));
    assert_eq!(rt; verdict(&b, (3, 1), &[(8, 3), (6, 3)]), Err((14, 2)));
    assert_eq!(rt; verdict(&b, (3, 1), &[(0, 3)]), Err((14, 1)));
    assert_eq!(rt; verdict(&b, (3, 1), &[(26, 3)]), Err((14, 1)));
    assert_eq!(rt; verdict(&b, (3, 1), &[(8, 200)]), Err((14, 1)));
    assert_eq!(rt; verdict(&b, (3, 1), &[(8, 3), (6, 1)]), Ok(()));
}

// A turn may not go on once the side is empty.
#[test]
fn nothing_behind_the_last_checker(rt: HostRuntime) -> Result<(), Fail> {
    let b = scene(&[(3, 1)], &[(1, 1)])?;
    assert_eq!(rt; verdict(&b, (6, 5), &[(3, 5), (3, 6)]), Err((15, 2)));
    assert_eq!(rt; verdict(&b, (6, 5), &[(3, 5), (3, 5)]), Err((14, 2)));
    Ok(())
}

#[test]
fn fields_of_a_refusal(rt: HostRuntime) {
    assert_eq!(rt;
        Refusal::plain(Reason::BoardRuleBroken).fields(),
        (2, 24, 0, 0, 0, 0)
    );
    assert_eq!(rt;
        Refusal::plain(Reason::SumTooOld).fields(),
        (3, 22, 0, 0, 0, 0)
    );
    assert_eq!(rt;
        Refusal::at_move(Reason::IllegalMove, 3).fields(),
        (1, 15, 0, 0, 3, 0)
    );
    assert_eq!(rt;
        Refusal::plain(Reason::ReportBufferTooShort).fields(),
        (4, 32, 0, 0, 0, 0)
    );
}
