// Fixed ranges.
use crate::answers::{is_refused, is_value};
use chance::kind::Chance;
use fixed::range::{Fixed, FixedRow};
use folds::{best_of, mean_of};
use refusals::reason::Reason;
use std::test::Fail;

// The value that such a row is read as.
fn read(lower: u32, upper: u32, age: u8) -> Fixed {
    Fixed::read_row(FixedRow { lower, upper, age })
}

#[test]
fn numbers(rt: HostRuntime) {
    assert_eq!(rt; Fixed::SCALE, 1_000_000_000);
    assert_eq!(rt; Fixed::GRAIN, 1);
    assert_eq!(rt; Fixed::REACH, 60);
}

#[test]
fn turned_and_better(rt: HostRuntime) {
    let a = read(10, 12, 3);
    let b = read(7, 14, 9);
    assert_eq!(rt; a.turned().ends(), (999_999_988, 999_999_990, 3));
    assert_eq!(rt; a.better(b).ends(), (10, 14, 9));
    assert_eq!(rt; b.better(a).ends(), (10, 14, 9));
    assert_eq!(rt; best_of(a, &[]).ends(), (10, 12, 3));
    assert_eq!(rt; best_of(Fixed::lost(), &[a, b]).ends(), (10, 14, 9));
}

#[test]
fn rounding_at_the_edges() -> Result<(), Fail> {
    let one = read(1, 1, 0);
    let none = Fixed::lost();
    is_value(mean_of(&[(1, one), (35, none)]), (0, 1, 1))?;
    is_value(mean_of(&[(35, one), (1, none)]), (0, 1, 1))?;
    is_value(mean_of(&[(36, one)]), (1, 1, 1))?;
    is_value(
        mean_of(&[(35, Fixed::won()), (1, none)]),
        (972_222_222, 972_222_223, 1),
    )
}

#[test]
fn closing_at_the_reach() -> Result<(), Fail> {
    let old = read(5, 5, 60);
    is_value(mean_of(&[(36, read(100, 159, 59))]), (100, 159, 60))?;
    is_refused(mean_of(&[(1, old), (35, Fixed::won())]), Reason::SumTooOld)?;
    is_refused(mean_of(&[(35, old)]), Reason::SumNotFull)?;
    is_refused(mean_of(&[(35, old), (2, old)]), Reason::WeightOutOfRange)
}

#[test]
fn rows_that_no_value_writes(rt: HostRuntime) {
    assert_eq!(rt; read(2, 1, 5).ends(), (0, 0, 0));
    assert_eq!(rt; read(999_999_999, 1_000_000_001, 5).ends(), (0, 0, 0));
    assert_eq!(rt; read(5, 10, 4).ends(), (0, 0, 0));
    assert_eq!(rt; read(5, 5, 61).ends(), (0, 0, 0));
}

#[test]
fn rows_that_a_value_writes(rt: HostRuntime) {
    assert_eq!(rt;
        read(999_999_940, 1_000_000_000, 60).ends(),
        (999_999_940, 1_000_000_000, 60)
    );
    let row = read(5, 10, 5).write_row();
    assert_eq!(rt; (row.lower, row.upper, row.age), (5, 10, 5));
}
