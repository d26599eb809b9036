use super::*;
use std::alloc::Global;
use std::test::Fail;
use us_kind::{Bytes, Memory};
use us_value::{Class, Item};

const CLASSES: [Class; 8] = [
    Class::Read,
    Class::Write,
    Class::Give,
    Class::Take,
    Class::Add,
    Class::Remove,
    Class::Enable,
    Class::Disable,
];

fn touch(alloc: Global, space: u8, id: &[u8], class: Class) -> Result<(Item, Class), Memory> {
    let id = Bytes::from_slice(alloc, id)?;
    Ok((Item { space, id }, class))
}

// Takes with takes and reads with writes conflict in space 2, and gives with takes in space 3.
fn declared(alloc: Global) -> Result<Conflicts, Memory> {
    Conflicts::new(
        alloc,
        &[
            (2, Class::Take, Class::Take),
            (2, Class::Read, Class::Write),
            (3, Class::Give, Class::Take),
        ],
    )
}

// Of all pairs of classes exactly the declared ones, in both orders.
#[test]
fn pairs_count_both_ways(rt: HostRuntime) -> Result<(), Fail> {
    let conflicts = declared(rt.alloc())?;
    let copy = conflicts.copy()?;
    let none = Conflicts::new(rt.alloc(), &[])?;
    for a in CLASSES {
        for b in CLASSES {
            let second = matches!(
                (a, b),
                (Class::Take, Class::Take)
                    | (Class::Read, Class::Write)
                    | (Class::Write, Class::Read)
            );
            let third = matches!(
                (a, b),
                (Class::Give, Class::Take) | (Class::Take, Class::Give)
            );
            assert_eq!(rt; conflicts.declared(2, a, b), second);
            assert_eq!(rt; conflicts.declared(3, a, b), third);
            assert_eq!(rt; conflicts.declared(1, a, b), false);
            assert_eq!(rt; copy.declared(2, a, b), second);
            assert_eq!(rt; none.declared(2, a, b), false);
        }
    }
    Ok(())
}

// The first place counts, on the same item, whichever of the two transactions is asked first.
#[test]
fn first_conflicting_place(rt: HostRuntime) -> Result<(), Fail> {
    let alloc = rt.alloc();
    let conflicts = declared(alloc)?;
    let one = vec![in alloc;
        touch(alloc, 2, b"a", Class::Give)?,
        touch(alloc, 2, b"b", Class::Take)?,
        touch(alloc, 2, b"a", Class::Take)?,
        touch(alloc, 3, b"a", Class::Take)?,
    ]?;
    for (space, id, class, place) in [
        (2, b"a".as_slice(), Class::Take, Some(2)),
        (2, b"b".as_slice(), Class::Take, Some(1)),
        (2, b"c".as_slice(), Class::Take, None),
        (2, b"a".as_slice(), Class::Give, None),
        (3, b"a".as_slice(), Class::Give, Some(3)),
        (3, b"a".as_slice(), Class::Take, None),
        (1, b"a".as_slice(), Class::Take, None),
    ] {
        let other = vec![in alloc; touch(alloc, space, id, class)?]?;
        assert_eq!(rt; conflicts.transactions(&one, &other), place);
        assert_eq!(rt; conflicts.transactions(&other, &one), place.map(|_| 0));
    }
    let both = vec![in alloc;
        touch(alloc, 3, b"a", Class::Give)?,
        touch(alloc, 2, b"b", Class::Take)?,
    ]?;
    assert_eq!(rt; conflicts.transactions(&one, &both), Some(1));
    assert_eq!(rt; conflicts.transactions(&[], &both), None);
    assert_eq!(rt; conflicts.transactions(&both, &[]), None);
    Ok(())
}
