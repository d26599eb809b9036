use super::fixtures::{NINE, TEN, TID, VECTOR, WRITES, framed, is_malformed, packet_of};
use std::alloc::Global;
use std::test::Fail;
use us_kind::Memory;

/// So many touches behind their count.
fn touches(alloc: Global, count: u8) -> Result<Vec<u8>, Memory> {
    let mut fields = Vec::from_slice(alloc, &[0, count])?;
    for _ in 0..count {
        fields.extend_from_slice(&[1, 1, 0x61, 6])?;
    }
    Ok(fields)
}

#[test]
fn a_transaction_touches_64_items(rt: HostRuntime) -> Result<(), Fail> {
    let alloc = rt.alloc();
    let most = touches(alloc, 64)?;
    assert!(rt; !is_malformed(alloc, 10, &[TID, VECTOR, most.as_slice(), WRITES])?);
    let more = touches(alloc, 65)?;
    assert!(rt; is_malformed(alloc, 10, &[TID, VECTOR, more.as_slice(), WRITES])?);
    Ok(())
}

#[test]
fn numbers_stay_within_their_bounds(rt: HostRuntime) -> Result<(), Fail> {
    let alloc = rt.alloc();
    assert!(rt; !is_malformed(alloc, 13, &[&[0x40, 0, 0, 0, 0, 0, 0, 0]])?);
    assert!(rt; is_malformed(alloc, 13, &[&[0x40, 0, 0, 0, 0, 0, 0, 1]])?);
    assert!(rt;
        is_malformed(alloc, 6, &[&[0], NINE, TEN, &[0, 0]])?,
        "origin 0"
    );
    assert!(rt;
        is_malformed(alloc, 6, &[&[2], NINE, TEN, &[0, 0]])?,
        "origin above the sites"
    );
    let mut frame = framed(alloc, 13, &[NINE])?;
    assert!(rt; packet_of(alloc, frame.as_slice())?.is_some());
    for (at, byte) in [
        (6, 0),
        (6, 2),
        (7, 2),
        (8, 0),
        (8, 2),
        (9, 2),
        (4, 2),
        (5, 0),
        (5, 20),
    ] {
        if at < frame.len() {
            let before = frame[at];
            frame[at] = byte;
            assert!(rt; packet_of(alloc, frame.as_slice())?.is_none());
            frame[at] = before;
        }
    }
    Ok(())
}
