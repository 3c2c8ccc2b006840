// Decision rules of ILAC-G8:09/2019.
use crate::cases::simple;
use acceptance::limits;
use faults::Fault;
use judging::judge;
use normal::Normal;
use requirement::{Requirement, RequirementRow};
use std::test::Fail;

// The verdict on a reading, with standard uncertainty 10 and expanded uncertainty 20.
fn verdict(row: &RequirementRow, reading: i64) -> Result<&'static str, Fault> {
    let requirement = Requirement::new(row)?;
    let judgement = judge(&requirement, 20, reading, &Normal::new(10)?)?;
    Ok(judgement.verdict.word())
}

// 4.2.1 to 4.2.3: two statements without and with a guard band of the expanded uncertainty, and four; the same of the mirror image. Each
// limit belongs to the better statement.
#[test]
fn statements_of_conformity(rt: HostRuntime) -> Result<(), Fail> {
    // with an upper limit of 1,000
    for (letter, first, mode, reading, stated) in [
        ('S', 0, 2, 1_000, "pass"),
        ('S', 0, 2, 1_001, "fail"),
        ('M', 100, 2, 980, "pass"),
        ('M', 100, 2, 981, "fail"),
        ('M', 100, 4, 980, "pass"),
        ('M', 100, 4, 981, "cpass"),
        ('M', 100, 4, 1_000, "cpass"),
        ('M', 100, 4, 1_001, "cfail"),
        ('M', 100, 4, 1_020, "cfail"),
        ('M', 100, 4, 1_021, "fail"),
    ] {
        let upper = RequirementRow {
            letter,
            first,
            mode,
            ..simple(None, Some(1_000))
        };
        assert_eq!(rt; verdict(&upper, reading)?, stated);
        let lower = RequirementRow {
            lower: Some(-1_000),
            upper: None,
            ..upper
        };
        assert_eq!(rt; verdict(&lower, reading.wrapping_neg())?, stated);
    }
    Ok(())
}

// 5.2, table 1: false acceptance below 0.16 %, 2.5 %, 5 % and 50 % on the acceptance limit. The upper limit is 10,000, the standard uncertainty
// 100 and the expanded one 200.
#[test]
fn false_acceptance(rt: HostRuntime) -> Result<(), Fail> {
    let knowledge = Normal::new(100)?;
    // a guard band in hundredths of the expanded uncertainty, the acceptance limit that it gives, and the least probability of conforming there
    for (hundredths, accepted, conforming) in [
        (150, 9_700, 998_400),
        (100, 9_800, 975_000),
        (83, 9_834, 950_000),
        (0, 10_000, 500_000),
    ] {
        let row = RequirementRow {
            letter: 'M',
            first: hundredths,
            ..simple(None, Some(10_000))
        };
        let requirement = Requirement::new(&row)?;
        assert_eq!(rt;
            limits(&requirement, 200, &knowledge)?.upper,
            Some(accepted)
        );
        let judgement = judge(&requirement, 200, accepted, &knowledge)?;
        assert!(rt; conforming <= judgement.bracket.floor);
    }
    Ok(())
}

// 5.2, table 1: with a guard band outside the limit what is rejected conforms with less than 2.5 %.
#[test]
fn false_rejection(rt: HostRuntime) -> Result<(), Fail> {
    let row = RequirementRow {
        letter: 'M',
        first: -100,
        ..simple(None, Some(10_000))
    };
    let requirement = Requirement::new(&row)?;
    let knowledge = Normal::new(100)?;
    assert_eq!(rt; limits(&requirement, 200, &knowledge)?.upper, Some(10_200));
    let judgement = judge(&requirement, 200, 10_201, &knowledge)?;
    assert_eq!(rt; judgement.verdict.word(), "fail");
    assert!(rt; judgement.bracket.ceiling < 25_000);
    Ok(())
}
