use crate::{DecodeFault, decode_reply, decode_request};
use std::alloc::Global;
use std::process::Abort;
use us_base::{Shape, Vector};
use us_kind::Memory;
use us_migrate::Token;

/// One site and one partition: vectors have two entries.
pub(crate) const ALONE: Shape = Shape { f: 0, parts: 1 };

/// Three sites and two partitions: vectors have four entries.
pub(crate) const THREE: Shape = Shape { f: 1, parts: 2 };

/// A frame with a tag and these fields, where there are fewer than 254 bytes.
pub(crate) fn framed(alloc: Global, number: u8, fields: &[u8]) -> Result<Vec<u8>, Memory> {
    let length = ((fields.len() + 2) % 256) as u8;
    let mut frame = Vec::from_slice(alloc, &[0, 0, 0, length, 1, number])?;
    frame.extend_from_slice(fields)?;
    Ok(frame)
}

/// The frame is none where it is cut at any byte, nor with a byte behind its last field.
pub(crate) fn is_whole(rt: &impl Abort, alloc: Global, frame: &[u8]) -> Result<(), Memory> {
    for end in 0..frame.len() {
        assert_eq!(rt;
            decode_request(alloc, &frame[..end], ALONE),
            Err(DecodeFault::Malformed)
        );
        assert_eq!(rt;
            decode_reply(alloc, &frame[..end], ALONE),
            Err(DecodeFault::Malformed)
        );
    }
    let mut longer = Vec::from_slice(alloc, frame)?;
    longer.push(0)?;
    assert_eq!(rt;
        decode_request(alloc, &longer, ALONE),
        Err(DecodeFault::Malformed)
    );
    assert_eq!(rt;
        decode_reply(alloc, &longer, ALONE),
        Err(DecodeFault::Malformed)
    );
    Ok(())
}

/// A token of a store of one site.
pub(crate) fn token() -> Token {
    Token {
        site: 1,
        coord: 1,
        session: 1,
        count: 1,
        vector: Vector::zero().with_entry(1, 1),
    }
}

// ATTACH(1.1.1,1,0:1) in a store of one site.
pub(crate) const ATTACH: &[u8] = &[
    0, 0, 0, 36, 1, 8, 1, 1, 0, 0, 0, 0, 0, 0, 0, 1, 0, 0, 0, 0, 0, 0, 0, 1, 0, 0, 0, 0, 0, 0, 0,
    0, 0, 0, 0, 0, 0, 0, 0, 1,
];
