use super::*;
use std::test::Fail;
use us_base::{Shape, Vector};
use us_kind::Tid;

/// Three sites and two partitions: vectors have four entries.
const THREE: Shape = Shape { f: 1, parts: 2 };

// Session 7 of coordinator 2 at site 3, 258 transactions, and the vector 1, 2, 3, 4 with strong first.
const TOKEN: &[u8] = &[
    3, 2, 0, 0, 0, 0, 0, 0, 0, 7, 0, 0, 0, 0, 0, 0, 1, 2, 0, 0, 0, 0, 0, 0, 0, 1, 0, 0, 0, 0, 0, 0,
    0, 2, 0, 0, 0, 0, 0, 0, 0, 3, 0, 0, 0, 0, 0, 0, 0, 4,
];

fn vector() -> Vector {
    Vector::zero()
        .with_entry(0, 1)
        .with_entry(1, 2)
        .with_entry(2, 3)
        .with_entry(3, 4)
}

fn token() -> Token {
    Token {
        site: 3,
        coord: 2,
        session: 7,
        count: 258,
        vector: vector(),
    }
}

#[test]
fn tokens_are_read(rt: HostRuntime) -> Result<(), Fail> {
    let mut out = Vec::from_slice(rt.alloc(), &[9])?;
    out.extend_from_slice(TOKEN)?;
    out.push(8)?;
    assert_eq!(rt; read_token(&out, 1, THREE), Some((token(), 51)));
    Ok(())
}

#[test]
fn cut_tokens_are_none(rt: HostRuntime) {
    for end in 0..TOKEN.len() {
        assert_eq!(rt; read_token(&TOKEN[..end], 0, THREE), None);
    }
    assert_eq!(rt; read_token(TOKEN, 51, THREE), None);
}

#[test]
fn tokens_keep_their_limits(rt: HostRuntime) -> Result<(), Fail> {
    for (place, byte, fits) in [
        (0, 0, false),
        (0, 4, false),
        (0, 1, true),
        (1, 0, false),
        (1, 3, false),
        (9, 0, false),
        // 2^62 with 7 more, and a number below it
        (2, 64, false),
        (2, 63, true),
        // an entry of 2^62 + 1, and below it
        (18, 64, false),
        (18, 63, true),
    ] {
        let mut bytes = Vec::from_slice(rt.alloc(), TOKEN)?;
        if let Some(there) = bytes.get_mut(place) {
            *there = byte;
        }
        assert_eq!(rt;
            read_token(&bytes, 0, THREE).is_some(),
            fits,
            "{place} {byte}"
        );
    }
    Ok(())
}

// 2^62 itself is a number.
#[test]
fn the_greatest_number(rt: HostRuntime) {
    let greatest = [1, 1, 64, 0, 0, 0, 0, 0, 0, 0];
    let greater = [1, 1, 64, 0, 0, 0, 0, 0, 0, 1];
    let tid = Tid {
        site: 1,
        coord: 1,
        seq: 4_611_686_018_427_387_904,
    };
    assert_eq!(rt; take_tid(&greatest, 0, THREE), Some((tid, 10)));
    assert_eq!(rt; take_tid(&greater, 0, THREE), None);
}

#[test]
fn fields_are_written(rt: HostRuntime) -> Result<(), Fail> {
    let mut out = Vec::new(rt.alloc());
    let tid = Tid {
        site: 3,
        coord: 2,
        seq: 1,
    };
    put_tid(&mut out, THREE, tid)?;
    out.extend_from_slice(&TOKEN[18..])?;
    assert_eq!(rt; &out[..10], [3, 2, 0, 0, 0, 0, 0, 0, 0, 1].as_slice());
    assert_eq!(rt; take_tid(&out, 0, THREE), Some((tid, 10)));
    assert_eq!(rt; take_vector(&out, 10, THREE), Some((vector(), 42)));
    Ok(())
}

#[test]
fn covered_and_passed(rt: HostRuntime) {
    let more = vector().with_entry(3, 5);
    assert!(rt; covers(&vector(), &token()));
    assert!(rt; covers(&more, &token()));
    assert!(rt; !covers(&vector().with_entry(0, 0), &token()));
    assert!(rt; passed(&vector(), &more, 3));
    assert!(rt; !passed(&more, &vector(), 3));
    assert!(rt; passed(&more, &vector(), 2));
}
