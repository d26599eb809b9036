use super::fixtures::ALONE;
use crate::decode_request;
use std::alloc::Global;
use std::test::Fail;
use us_kind::Memory;

/// A WRITE of `v`s on an item whose id is `k`s.
#[derive(Drop)]
struct Long {
    length: [u8; 4],
    id: u8,
    value: u16,
    value_length: [u8; 2],
}

impl Long {
    fn frame(&self, alloc: Global) -> Result<Vec<u8>, Memory> {
        let mut frame = Vec::from_slice(alloc, &self.length)?;
        frame.extend_from_slice(&[1, 2, 1, self.id])?;
        for _ in 0..self.id {
            frame.push(b'k')?;
        }
        frame.push(2)?;
        frame.extend_from_slice(&self.value_length)?;
        for _ in 0..self.value {
            frame.push(b'v')?;
        }
        Ok(frame)
    }
}

// An id has 1 to 64 bytes, and a value at most 1,024.
#[test]
fn requests_keep_their_limits(rt: HostRuntime) -> Result<(), Fail> {
    let alloc = rt.alloc();
    for (length, id, value, value_length, fits) in [
        ([0, 0, 0, 8], 1, 0, [0, 0], true),
        ([0, 0, 4, 8], 1, 1024, [4, 0], true),
        ([0, 0, 4, 9], 1, 1025, [4, 1], false),
        ([0, 0, 0, 8], 0, 1, [0, 1], false),
        ([0, 0, 0, 72], 64, 1, [0, 1], true),
        ([0, 0, 0, 73], 65, 1, [0, 1], false),
        ([0, 0, 4, 71], 64, 1024, [4, 0], true),
        ([0, 0, 0, 10], 1, 2, [2, 0], false),
        // a length field that doesn't tell what follows
        ([0, 0, 0, 9], 1, 0, [0, 0], false),
    ] {
        let long = Long {
            length,
            id,
            value,
            value_length,
        };
        let read = decode_request(alloc, &long.frame(alloc)?, ALONE);
        assert_eq!(rt; read.is_ok(), fits);
    }
    Ok(())
}
