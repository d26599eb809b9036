use super::*;
use std::alloc::Global;
use std::test::Fail;
use us_kind::{Bytes, Memory};

#[test]
fn catalogue(rt: HostRuntime) -> Result<(), Fail> {
    let alloc = rt.alloc();
    let spaces = [(3, Kind::Set), (1, Kind::Counter), (255, Kind::Flag)];
    let catalog = Catalog::new(alloc, &spaces)?;
    assert_eq!(rt; catalog.kind_of(1), Some(Kind::Counter));
    assert_eq!(rt; catalog.kind_of(2), None);
    assert_eq!(rt; catalog.kind_of(3), Some(Kind::Set));
    assert_eq!(rt; catalog.kind_of(254), None);
    assert_eq!(rt; catalog.kind_of(255), Some(Kind::Flag));
    assert_eq!(rt; catalog.copy()?.kind_of(3), Some(Kind::Set));
    Ok(())
}

const CLASSES: [Class; 8] = [
    Class::Read,
    Class::Write,
    Class::Give,
    Class::Take,
    Class::Add,
    Class::Remove,
    Class::Enable,
    Class::Disable,
];

// For each class a word, with a 1 for each kind that has it.
const CLASSES_OF_KINDS: &str = "11111 10001 01000 01000 00100 00100 00010 00010";

#[test]
fn classes_of_kinds(rt: HostRuntime) -> Result<(), Fail> {
    for (class, word) in CLASSES.iter().zip(CLASSES_OF_KINDS.split(' ')) {
        for (kind, has) in KINDS.iter().zip(word.bytes()) {
            assert_eq!(rt; kind_has(*kind, *class), has == b'1', "{kind:?} {class:?}");
        }
    }
    Ok(())
}

#[test]
fn classes_of_operations(rt: HostRuntime) -> Result<(), Fail> {
    let value = Bytes::from_slice(rt.alloc(), b"x")?;
    assert_eq!(rt; class_of(&Op::RegisterRead), Class::Read);
    assert_eq!(rt; class_of(&Op::MultiWrite { value }), Class::Write);
    assert_eq!(rt; class_of(&Op::CounterAdd { amount: 1 }), Class::Give);
    assert_eq!(rt; class_of(&Op::CounterAdd { amount: 0 }), Class::Give);
    assert_eq!(rt; class_of(&Op::CounterAdd { amount: -1 }), Class::Take);
    assert_eq!(rt; class_of(&Op::FlagEnable), Class::Enable);
    assert_eq!(rt; class_of(&Op::FlagDisable), Class::Disable);
    Ok(())
}

fn item(alloc: Global, space: u8, id: &[u8]) -> Result<Item, Memory> {
    let id = Bytes::from_slice(alloc, id)?;
    Ok(Item { space, id })
}

#[test]
fn items_are_told_apart(rt: HostRuntime) -> Result<(), Fail> {
    let alloc = rt.alloc();
    let ab = item(alloc, 1, b"ab")?;
    assert!(rt; ab.same(&item(alloc, 1, b"ab")?));
    assert!(rt; !ab.same(&item(alloc, 2, b"ab")?));
    assert!(rt; !ab.same(&item(alloc, 1, b"a")?));
    assert!(rt; !ab.same(&item(alloc, 1, b"abc")?));
    assert!(rt; !ab.same(&item(alloc, 1, b"ac")?));
    Ok(())
}
