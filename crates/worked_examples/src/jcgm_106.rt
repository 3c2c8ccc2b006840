// Examples of JCGM 106:2012, in the Spanish edition of the Centro Español de Metrología, 2015.
use crate::cases::{known, simple};
use judging::judge;
use normal::Normal;
use requirement::{Requirement, RequirementRow};
use std::test::Fail;

// Millionths to the nearest hundredth.
fn hundredths(millionths: u32) -> u64 {
    (u64::from(millionths) + 5_000) / 10_000
}

// A measurement with its probability of conforming: as printed, in hundredths, and to the nearest millionth by the normal distribution
// function, from outside this engine.
#[derive(Clone, Copy)]
struct Example {
    lower: Option<i64>,
    upper: Option<i64>,
    standard_uncertainty: i64,
    reading: i64,
    printed: u64,
    exact: u32,
}

// 7.3.3 and 7.4: both ends of the bracket round to what is printed, and the exact value lies between them.
#[test]
fn probabilities_of_conforming(rt: HostRuntime) -> Result<(), Fail> {
    // the breakdown voltage of a Zener diode, in hundredths of a volt
    let diode = Example {
        lower: None,
        upper: Some(-540),
        standard_uncertainty: 5,
        reading: -547,
        printed: 92,
        exact: 919_243,
    };
    // the burst strength of a metal container, in tenths of a kilopascal
    let container = Example {
        lower: Some(4_900),
        upper: None,
        standard_uncertainty: 86,
        reading: 5_097,
        printed: 99,
        exact: 989_010,
    };
    // the kinematic viscosity of a motor oil, in tenths of a square millimetre per second
    let oil = Example {
        lower: Some(125),
        upper: Some(163),
        standard_uncertainty: 18,
        reading: 136,
        printed: 66,
        exact: 662_630,
    };
    for example in [diode, container, oil] {
        let spread = example.standard_uncertainty;
        let conforming = known(example.lower, example.upper, spread, example.reading)?;
        assert_eq!(rt; hundredths(conforming.floor), example.printed);
        assert_eq!(rt; hundredths(conforming.ceiling), example.printed);
        assert!(rt; conforming.floor <= example.exact && example.exact <= conforming.ceiling);
    }
    Ok(())
}

// 7.3.3, table 1: by the distance from an upper limit, or from a lower one, in hundredths of a standard uncertainty.
#[test]
fn distances_from_one_limit(rt: HostRuntime) -> Result<(), Fail> {
    for (distance, printed) in [(84, 80), (128, 90), (164, 95), (233, 99)] {
        let below = known(None, Some(1_000 + distance), 100, 1_000)?;
        assert_eq!(rt;
            (hundredths(below.floor), hundredths(below.ceiling)),
            (printed, printed)
        );
        let above = known(Some(1_000 - distance), None, 100, 1_000)?;
        assert_eq!(rt;
            (hundredths(above.floor), hundredths(above.ceiling)),
            (printed, printed)
        );
    }
    // 0.999 at 3.09 standard uncertainties, to the nearest thousandth
    let far = known(None, Some(1_309), 100, 1_000)?;
    assert!(rt; 998_500 <= far.floor && far.ceiling < 999_500);
    Ok(())
}

// 8.3.2.3: a guard band of the expanded uncertainty leaves an accepted item a risk of 2.3 % at most, met on the acceptance limit.
#[test]
fn guard_band_of_expanded_uncertainty(rt: HostRuntime) -> Result<(), Fail> {
    let row = RequirementRow {
        letter: 'M',
        first: 100,
        ..simple(None, Some(1_000))
    };
    let requirement = Requirement::new(&row)?;
    let knowledge = Normal::new(10)?;
    let on_limit = judge(&requirement, 20, 980, &knowledge)?;
    assert_eq!(rt; on_limit.verdict.word(), "pass");
    assert!(rt; 977_000 <= on_limit.bracket.floor);
    let beyond = judge(&requirement, 20, 981, &knowledge)?;
    assert_eq!(rt; beyond.verdict.word(), "fail");
    Ok(())
}

// 8.3.1.2: on a limit half of the probability lies outside. 8.3.3, example 1: from 107 km/h on, with a relative standard uncertainty of 2 %,
// a speed is above 100 km/h with 99.9 % at least; in hundredths of a kilometre per hour.
#[test]
fn on_and_beyond_a_limit(rt: HostRuntime) -> Result<(), Fail> {
    let on_limit = known(None, Some(1_000), 7, 1_000)?;
    assert_eq!(rt; (on_limit.floor, on_limit.ceiling), (500_000, 500_000));
    assert!(rt; 999_000 <= known(Some(10_000), None, 214, 10_700)?.floor);
    assert!(rt; known(Some(10_000), None, 212, 10_600)?.ceiling < 999_000);
    Ok(())
}
