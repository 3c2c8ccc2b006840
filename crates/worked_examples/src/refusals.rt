// Every refusal of a requirement, of acceptance limits and of judging, by its number.
use crate::cases::simple;
use acceptance::limits;
use judging::{bracket, judge};
use normal::Normal;
use requirement::{Requirement, RequirementRow};
use std::process::Abort;
use std::test::Fail;
use trials::refused;

// Each record is refused with this number, or none is refused.
fn check_making(rt: &impl Abort, rows: &[RequirementRow], expected: Option<u8>) {
    for row in rows {
        assert_eq!(rt; refused(Requirement::new(row)), expected);
    }
}

// Limits 0 and 100 with a rule and a mode.
fn ruled(letter: char, first: i64, second: i64, mode: i64) -> RequirementRow {
    RequirementRow {
        letter,
        first,
        second,
        mode,
        ..simple(Some(0), Some(100))
    }
}

#[test]
fn fields_and_limits(rt: HostRuntime) {
    let good = simple(Some(0), Some(100));
    let out_of_range = [
        RequirementRow { class: 0, ..good },
        RequirementRow { class: 10, ..good },
        RequirementRow {
            characteristic: 0,
            ..good
        },
        RequirementRow {
            characteristic: 21,
            ..good
        },
        simple(Some(-1_000_001), None),
        simple(None, Some(1_000_001)),
        ruled('G', 1_000_001, 0, 2),
        ruled('G', 0, 1_000_001, 2),
        ruled('S', 0, 0, 3),
    ];
    check_making(&rt, &[good], None);
    check_making(&rt, &out_of_range, Some(12));
    check_making(&rt, &[ruled('X', 0, 0, 2)], Some(13));
    check_making(&rt, &[simple(None, None)], Some(20));
    check_making(
        &rt,
        &[simple(Some(0), Some(0)), simple(Some(1), Some(0))],
        Some(21),
    );
}

#[test]
fn numbers_and_modes_against_the_rule(rt: HostRuntime) {
    let against = [
        ruled('S', 1, 0, 2),
        ruled('S', 0, 1, 2),
        ruled('G', 100_001, 0, 2),
        ruled('G', -100_001, 0, 2),
        ruled('G', 1, 1, 2),
        ruled('G', -1, 0, 4),
        ruled('M', 201, 0, 2),
        ruled('M', -201, 0, 2),
        ruled('M', 1, 1, 2),
        ruled('M', -1, 0, 4),
        ruled('P', 500_001, 0, 2),
        ruled('P', 0, 500_001, 2),
        ruled('P', -1, 0, 2),
        ruled('P', 1, 1, 4),
        RequirementRow {
            lower: None,
            ..ruled('P', 1, 1, 2)
        },
        RequirementRow {
            upper: None,
            ..ruled('P', 1, 1, 2)
        },
    ];
    check_making(&rt, &against, Some(22));
}

// The calls on a reading, and the number with which each is refused, if it is.
#[derive(Clone, Copy)]
struct Calls {
    row: RequirementRow,
    expanded: i64,
    reading: i64,
    bracket: Option<u8>,
    limits: Option<u8>,
    judge: Option<u8>,
}

// A reading in range and an expanded uncertainty of 0, where bracket answers and the other two are refused alike.
fn in_range(row: RequirementRow, number: Option<u8>) -> Calls {
    Calls {
        row,
        expanded: 0,
        reading: 50,
        bracket: None,
        limits: number,
        judge: number,
    }
}

// The calls on another reading: bracket and judge refuse it with 12, limits answers as before.
fn at_reading(base: Calls, reading: i64) -> Calls {
    Calls {
        reading,
        bracket: Some(12),
        judge: Some(12),
        ..base
    }
}

// The calls with another expanded uncertainty: limits and judge refuse it with 12, bracket answers as before.
fn at_expanded(base: Calls, expanded: i64) -> Calls {
    Calls {
        expanded,
        limits: Some(12),
        judge: Some(12),
        ..base
    }
}

// A number out of range comes before an offset that is not there, and this before acceptance limits that cross.
#[test]
fn calls_in_order(rt: HostRuntime) -> Result<(), Fail> {
    let good = in_range(ruled('S', 0, 0, 2), None);
    let too_sure = in_range(ruled('P', 500_000, 34, 2), Some(31));
    let crossed = in_range(ruled('G', 51, 0, 2), Some(32));
    let calls = [
        good,
        at_reading(good, 1_000_001),
        at_reading(good, -1_000_001),
        at_expanded(good, -1),
        at_expanded(good, 1_000_001),
        too_sure,
        at_reading(too_sure, 1_000_001),
        at_expanded(too_sure, -1),
        crossed,
        at_reading(crossed, 1_000_001),
        at_expanded(crossed, -1),
        in_range(ruled('P', 34, 500_000, 2), Some(31)),
        in_range(ruled('P', 25_000, 25_000, 2), Some(32)),
    ];
    let knowledge = Normal::new(100)?;
    for call in calls {
        let requirement = Requirement::new(&call.row)?;
        let known = bracket(&requirement, call.reading, &knowledge);
        assert_eq!(rt; refused(known), call.bracket);
        assert_eq!(rt;
            refused(limits(&requirement, call.expanded, &knowledge)),
            call.limits
        );
        let judged = judge(&requirement, call.expanded, call.reading, &knowledge);
        assert_eq!(rt; refused(judged), call.judge);
    }
    Ok(())
}
