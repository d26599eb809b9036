use crate::{Listed, Places, places_under, put_under};
use std::collections::HashMap;
use std::test::Fail;

#[test]
fn a_key_is_listed_once_it_came(rt: HostRuntime) -> Result<(), Fail> {
    let mut list = Listed::new(rt.alloc());
    assert!(rt; !list.contains(&7u64));
    for key in [5, 7, 5] {
        list.push(key)?;
    }
    assert!(rt; list.contains(&7));
    assert!(rt; !list.contains(&6));
    assert_eq!(rt; list.as_slice(), [5, 7, 5].as_slice());
    Ok(())
}

#[test]
fn a_key_has_its_places(rt: HostRuntime) -> Result<(), Fail> {
    let mut list = Places::new(rt.alloc());
    for key in [5u64, 7, 5, 9, 5] {
        list.push(key)?;
    }
    assert_eq!(rt; list.of(&5), [0, 2, 4].as_slice());
    assert_eq!(rt; list.of(&9), [3].as_slice());
    assert!(rt; list.of(&6).is_empty());
    Ok(())
}

#[test]
fn a_place_is_put_once_in_a_row(rt: HostRuntime) -> Result<(), Fail> {
    let mut places = HashMap::new(rt.alloc());
    for (key, place) in [(5u64, 0), (5, 0), (7, 0), (5, 3), (5, 3)] {
        put_under(rt.alloc(), &mut places, key, place)?;
    }
    assert_eq!(rt; places_under(&places, &5), [0, 3].as_slice());
    assert_eq!(rt; places_under(&places, &7), [0].as_slice());
    assert!(rt; places_under(&places, &6).is_empty());
    Ok(())
}
