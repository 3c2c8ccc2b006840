// The requirement sheet.
use crate::requirements::requirement;
use sheet::{Sheet, check_places};
use std::test::Fail;
use trials::refused;

// The limit of what the sheet finds.
fn limit(sheet: &Sheet<'_>, class: u8, characteristic: u8) -> Option<i64> {
    sheet.find(class, characteristic)?.tolerance().lower()
}

// A requirement that stands is refused with 23, also where the sheet is full, and any other then with 24.
#[test]
fn added_and_found(rt: HostRuntime) -> Result<(), Fail> {
    let mut places = [requirement(9, 9, 0)?; 3];
    let mut sheet = Sheet::new(&mut places);
    assert_eq!(rt; sheet.len(), 0);
    assert_eq!(rt; refused(sheet.add(requirement(2, 3, 10)?)), None);
    assert_eq!(rt; refused(sheet.add(requirement(2, 3, 11)?)), Some(23));
    assert_eq!(rt; refused(sheet.add(requirement(3, 2, 20)?)), None);
    assert_eq!(rt; refused(sheet.add(requirement(1, 20, 30)?)), None);
    assert_eq!(rt; sheet.len(), 3);
    assert_eq!(rt; refused(sheet.add(requirement(1, 20, 31)?)), Some(23));
    assert_eq!(rt; refused(sheet.add(requirement(1, 1, 40)?)), Some(24));
    assert_eq!(rt; sheet.len(), 3);
    assert_eq!(rt; limit(&sheet, 1, 20), Some(30));
    assert_eq!(rt; limit(&sheet, 2, 3), Some(10));
    assert_eq!(rt; limit(&sheet, 3, 2), Some(20));
    assert_eq!(rt; limit(&sheet, 9, 9), None);
    Ok(())
}

#[test]
fn longest_list(rt: HostRuntime) -> Result<(), Fail> {
    assert_eq!(rt; refused(check_places(0)), None);
    assert_eq!(rt; refused(check_places(10_000)), None);
    assert_eq!(rt; refused(check_places(10_001)), Some(12));
    let mut places = [requirement(9, 9, 0)?; 10_000];
    let mut sheet = Sheet::new(&mut places);
    assert_eq!(rt; refused(sheet.add(requirement(2, 3, 10)?)), None);
    assert_eq!(rt; sheet.len(), 1);
    Ok(())
}

// A list that is too long gives no place.
#[test]
fn too_long_a_list(rt: HostRuntime) -> Result<(), Fail> {
    let mut places = [requirement(9, 9, 0)?; 10_001];
    let mut sheet = Sheet::new(&mut places);
    assert_eq!(rt; refused(sheet.add(requirement(2, 3, 10)?)), Some(24));
    assert_eq!(rt; sheet.len(), 0);
    assert_eq!(rt; limit(&sheet, 2, 3), None);
    Ok(())
}
