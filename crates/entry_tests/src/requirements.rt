// The table at the requirements, by class and characteristic.
use crate::script::fill_empty_refill;
use faults::Fault;
use requirement::{Requirement, RequirementRow};
use std::test::Fail;

// Simple acceptance from this limit on.
pub fn requirement(class: i64, characteristic: i64, lower: i64) -> Result<Requirement, Fault> {
    Requirement::new(&RequirementRow {
        class,
        characteristic,
        lower: Some(lower),
        upper: None,
        letter: 'S',
        first: 0,
        second: 0,
        mode: 2,
    })
}

// Requirements whose classes, then characteristics ascend, all with this limit.
fn requirements(lower: i64) -> Result<[Requirement; 7], Fault> {
    Ok([
        requirement(1, 20, lower)?,
        requirement(2, 1, lower)?,
        requirement(2, 3, lower)?,
        requirement(2, 20, lower)?,
        requirement(3, 2, lower)?,
        requirement(9, 1, lower)?,
        requirement(9, 19, lower)?,
    ])
}

#[test]
fn requirements_by_class_and_characteristic(rt: HostRuntime) -> Result<(), Fail> {
    let mut places = [requirement(7, 7, 0)?; 5];
    fill_empty_refill(&rt, &mut places, &requirements(-40)?, &requirements(70)?);
    Ok(())
}
