use super::*;
use std::test::Fail;

fn tid(site: u8, coord: u8, seq: u64) -> Tid {
    Tid { site, coord, seq }
}

#[test]
fn bytes_calls(rt: HostRuntime) -> Result<(), Fail> {
    let alloc = rt.alloc();
    let bytes = Bytes::from_slice(alloc, b"ab")?;
    assert_eq!(rt; bytes.as_slice(), b"ab".as_slice());
    assert_eq!(rt; bytes.len(), 2);
    let copy = bytes.copy()?;
    assert_eq!(rt; copy.as_slice(), b"ab".as_slice());
    let clone = bytes.clone()?;
    assert_eq!(rt; clone.as_slice(), b"ab".as_slice());
    assert!(rt; bytes.same(&copy));
    let vec = bytes.into_vec();
    assert_eq!(rt; Bytes::of(vec).as_slice(), b"ab".as_slice());
    let longer = Bytes::from_slice(alloc, b"ab\x00")?;
    let shorter = Bytes::from_slice(alloc, b"a\xff")?;
    assert!(rt; !copy.same(&longer));
    assert!(rt; copy < longer);
    assert!(rt; longer < shorter);
    Ok(())
}

#[test]
fn items_calls(rt: HostRuntime) -> Result<(), Fail> {
    let mut items = Items::new(rt.alloc());
    assert!(rt; items.is_empty());
    items.push(4u8)?;
    items.push(5u8)?;
    items.push(6u8)?;
    assert_eq!(rt; items.len(), 3);
    assert_eq!(rt; items.as_slice(), [4, 5, 6].as_slice());
    assert_eq!(rt; items.remove(1), 5);
    let mut other = Items::new(items.allocator());
    other.push(7u8)?;
    assert_eq!(rt; other.as_slice(), [7].as_slice());
    let rest = Items::of(items.into_vec());
    assert_eq!(rt; rest.as_slice(), [4, 6].as_slice());
    Ok(())
}

#[test]
fn stamps_and_tags(rt: HostRuntime) -> Result<(), Fail> {
    let stamp = Stamp {
        sum: 7,
        tid: tid(1, 2, 3),
        place: 4,
    };
    let tag = Tag {
        tid: tid(1, 2, 3),
        place: 4,
    };
    assert_eq!(rt; stamp.tag(), tag);
    assert!(rt; tid(1, 2, 3).same(&tid(1, 2, 3)));
    assert!(rt; !tid(1, 2, 3).same(&tid(2, 2, 3)));
    assert!(rt; !tid(1, 2, 3).same(&tid(1, 1, 3)));
    assert!(rt; !tid(1, 2, 3).same(&tid(1, 2, 4)));
    Ok(())
}

#[test]
fn out_of_memory_in_words(rt: HostRuntime) -> Result<(), Fail> {
    let text = format!(in rt.alloc(); "{Memory}")?;
    assert_eq!(rt; text.as_str().as_bytes(), b"out of memory".as_slice());
    Ok(())
}

#[test]
fn sums_that_do_not_fit(rt: HostRuntime) -> Result<(), Fail> {
    assert_eq!(rt; checked_sum(u64::MAX - 1, 1), Ok(u64::MAX));
    assert_eq!(rt; checked_sum(u64::MAX, 1), Err(Memory));
    Ok(())
}
