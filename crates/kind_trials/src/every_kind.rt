// What every kind does alike, tried on both.
use crate::answers::{is_added, is_refused, is_same, is_value};
use chance::kind::Chance;
use exact::number::Exact;
use fixed::range::Fixed;
use folds::mean_of;
use refusals::reason::Reason;
use std::test::Fail;

const MISFIT: Result<(), Reason> = Err(Reason::WeightOutOfRange);

fn ends_of_the_scale<K: Chance>() -> Result<(), Fail> {
    let scale = K::SCALE;
    is_same(K::lost().ends(), (0, 0, 0))?;
    is_same(K::won().ends(), (scale, scale, 0))?;
    is_same(K::won().turned().ends(), (0, 0, 0))
}

// A refused weight leaves the sum as it was.
fn weights<K: Chance>() -> Result<(), Fail> {
    let mut sum = K::empty();
    is_added::<K>(&mut sum, 0, MISFIT)?;
    is_added::<K>(&mut sum, 37, MISFIT)?;
    is_added::<K>(&mut sum, u64::MAX, MISFIT)?;
    is_added::<K>(&mut sum, 30, Ok(()))?;
    is_added::<K>(&mut sum, 7, MISFIT)?;
    is_added::<K>(&mut sum, 6, Ok(()))?;
    is_added::<K>(&mut sum, 1, MISFIT)
}

// A closed sum is as new, and one that is refused stays as it was.
fn closing<K: Chance>() -> Result<(), Fail> {
    let scale = K::SCALE;
    let mut sum = K::empty();
    is_added::<K>(&mut sum, 35, Ok(()))?;
    is_refused(K::close(&mut sum), Reason::SumNotFull)?;
    is_added::<K>(&mut sum, 1, Ok(()))?;
    is_value(K::close(&mut sum), (scale, scale, 1))?;
    is_refused(K::close(&mut sum), Reason::SumNotFull)?;
    is_added::<K>(&mut sum, 36, Ok(()))
}

// The 21 rolls with their weights, where the roller wins at the doubles.
fn doubles_win<K: Chance>() -> [(u64, K); 21] {
    let other = (2, K::lost());
    let double = (1, K::won());
    [
        double, other, double, other, other, double, other, other, other, double, other, other,
        other, other, double, other, other, other, other, other, double,
    ]
}

#[test]
fn ends_of_both_scales() -> Result<(), Fail> {
    ends_of_the_scale::<Fixed>()?;
    ends_of_the_scale::<Exact>()
}

#[test]
fn weights_of_both() -> Result<(), Fail> {
    weights::<Fixed>()?;
    weights::<Exact>()
}

#[test]
fn closing_of_both() -> Result<(), Fail> {
    closing::<Fixed>()?;
    closing::<Exact>()
}

#[test]
fn a_sixth() -> Result<(), Fail> {
    is_value(
        mean_of(&doubles_win::<Fixed>()),
        (166_666_666, 166_666_667, 1),
    )?;
    is_value(
        mean_of(&doubles_win::<Exact>()),
        (21_936_950_640_377_856, 21_936_950_640_377_856, 1),
    )
}
