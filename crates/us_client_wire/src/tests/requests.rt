use super::fixtures::{ALONE, ATTACH, THREE, framed, is_whole, token};
use crate::{DecodeFault, Request, decode_request, encode_request};
use std::alloc::Global;
use std::process::Abort;
use std::test::Fail;
use us_kind::{Bytes, Memory};
use us_value::{Item, Op};

/// Operations on item 1:a and the bytes behind its id.
fn operations(alloc: Global) -> Result<[(Op, &'static [u8]); 13], Memory> {
    Ok([
        (Op::RegisterRead, &[1]),
        (
            Op::RegisterWrite {
                value: Bytes::from_slice(alloc, b"x")?,
            },
            &[2, 0, 1, 0x78],
        ),
        (Op::CounterRead, &[3]),
        (
            Op::CounterAdd { amount: -2 },
            &[4, 255, 255, 255, 255, 255, 255, 255, 254],
        ),
        (Op::SetMembers, &[5]),
        (
            Op::SetContains {
                value: Bytes::from_slice(alloc, b"yz")?,
            },
            &[6, 0, 2, 0x79, 0x7a],
        ),
        (
            Op::SetAdd {
                value: Bytes::from_slice(alloc, b"")?,
            },
            &[7, 0, 0],
        ),
        (
            Op::SetRemove {
                value: Bytes::from_slice(alloc, b"x")?,
            },
            &[8, 0, 1, 0x78],
        ),
        (Op::FlagRead, &[9]),
        (Op::FlagEnable, &[10]),
        (Op::FlagDisable, &[11]),
        (Op::MultiRead, &[12]),
        (
            Op::MultiWrite {
                value: Bytes::from_slice(alloc, b"x")?,
            },
            &[13, 0, 1, 0x78],
        ),
    ])
}

/// The request and the frame are each other's.
fn is_request(
    rt: &impl Abort,
    alloc: Global,
    request: Request,
    frame: &[u8],
) -> Result<(), Memory> {
    assert_eq!(rt; decode_request(alloc, frame, ALONE), Ok(request));
    is_whole(rt, alloc, frame)
}

#[test]
fn operations_are_read(rt: HostRuntime) -> Result<(), Fail> {
    let alloc = rt.alloc();
    for (op, bytes) in operations(alloc)? {
        let mut fields = Vec::from_slice(alloc, &[1, 1, 0x61])?;
        fields.extend_from_slice(bytes)?;
        let item = Item {
            space: 1,
            id: Bytes::from_slice(alloc, b"a")?,
        };
        let frame = framed(alloc, 2, &fields)?;
        is_request(&rt, alloc, Request::Perform { item, op }, &frame)?;
    }
    Ok(())
}

#[test]
fn bare_requests_are_read(rt: HostRuntime) -> Result<(), Fail> {
    let alloc = rt.alloc();
    for (request, number) in [
        (Request::Begin, 1),
        (Request::CommitCausal, 3),
        (Request::CommitStrong, 4),
        (Request::Abandon, 5),
        (Request::Barrier, 6),
        (Request::AskToken, 7),
    ] {
        let bytes = encode_request(alloc, &request, ALONE)?;
        assert_eq!(rt; bytes.as_slice(), [0, 0, 0, 2, 1, number].as_slice());
        is_request(&rt, alloc, request, &[0, 0, 0, 2, 1, number])?;
    }
    Ok(())
}

#[test]
fn tokens_are_attached(rt: HostRuntime) -> Result<(), Fail> {
    let alloc = rt.alloc();
    is_request(&rt, alloc, Request::Attach { token: token() }, ATTACH)?;
    // a site that one site's store doesn't have, and a session 0
    for (place, byte) in [(6, 2), (6, 0), (7, 2), (15, 0)] {
        let mut frame = Vec::from_slice(alloc, ATTACH)?;
        if let Some(there) = frame.get_mut(place) {
            *there = byte;
        }
        assert_eq!(rt;
            decode_request(alloc, &frame, ALONE),
            Err(DecodeFault::Malformed)
        );
    }
    // three sites have two more entries
    assert_eq!(rt;
        decode_request(alloc, ATTACH, THREE),
        Err(DecodeFault::Malformed)
    );
    Ok(())
}
