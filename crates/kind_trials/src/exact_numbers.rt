// Exact numbers.
use crate::answers::{is_refused, is_value};
use chance::kind::Chance;
use exact::number::{Exact, ExactRow};
use folds::mean_of;
use refusals::reason::Reason;
use std::test::Fail;

// 36^11 and 36^10
const SCALE: u64 = 131_621_703_842_267_136;

const UNIT: u64 = 3_656_158_440_062_976;

// The value that such a row is read as.
fn read(number: u64, age: u8) -> Exact {
    Exact::read_row(ExactRow { number, age })
}

#[test]
fn numbers(rt: HostRuntime) {
    assert_eq!(rt; Exact::SCALE, SCALE);
    assert_eq!(rt; Exact::GRAIN, 0);
    assert_eq!(rt; Exact::REACH, 11);
}

#[test]
fn turned_and_better(rt: HostRuntime) {
    let a = read(UNIT, 1);
    let b = read(35, 11);
    assert_eq!(rt; a.turned().ends(), (SCALE - UNIT, SCALE - UNIT, 1));
    assert_eq!(rt; a.better(b).ends(), (UNIT, UNIT, 11));
    assert_eq!(rt; b.better(b).ends(), (35, 35, 11));
}

#[test]
fn means() -> Result<(), Fail> {
    let none = Exact::lost();
    is_value(mean_of(&[(1, Exact::won()), (35, none)]), (UNIT, UNIT, 1))?;
    is_value(mean_of(&[(36, read(UNIT, 1))]), (UNIT, UNIT, 2))
}

#[test]
fn closing_at_the_reach() -> Result<(), Fail> {
    let none = Exact::lost();
    let old = read(1, 11);
    is_value(mean_of(&[(1, read(36, 10)), (35, none)]), (1, 1, 11))?;
    is_refused(mean_of(&[(1, old), (35, none)]), Reason::SumTooOld)?;
    is_refused(mean_of(&[(1, old), (34, none)]), Reason::SumNotFull)?;
    is_refused(mean_of(&[(1, old), (0, none)]), Reason::WeightOutOfRange)
}

#[test]
fn rows_that_no_value_writes(rt: HostRuntime) {
    assert_eq!(rt; read(SCALE + 1, 11).ends(), (0, 0, 0));
    assert_eq!(rt; read(35, 10).ends(), (0, 0, 0));
    assert_eq!(rt; read(UNIT, 0).ends(), (0, 0, 0));
    assert_eq!(rt; read(36, 12).ends(), (0, 0, 0));
}

#[test]
fn rows_that_a_value_writes(rt: HostRuntime) {
    assert_eq!(rt; read(SCALE, 0).ends(), (SCALE, SCALE, 0));
    assert_eq!(rt; read(1, 11).ends(), (1, 1, 11));
    let row = read(5 * UNIT, 1).write_row();
    assert_eq!(rt; (row.number, row.age), (5 * UNIT, 1));
}
