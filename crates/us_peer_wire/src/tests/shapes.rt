use super::fixtures::packet_of;
use crate::{decode, encode, packet_len};
use std::alloc::Global;
use std::test::Fail;
use us_base::Shape;
use us_fields::DecodeFault;
use us_kind::Memory;

/// Three sites with two partitions each: vectors have four entries.
const THREE: Shape = Shape { f: 1, parts: 2 };

/// Whether the frame is a packet's in a store of three sites, and this packet's frame is the same.
fn is_of_three(alloc: Global, frame: &[u8]) -> Result<bool, Memory> {
    match decode(alloc, frame, THREE) {
        Ok(packet) => {
            let again = encode(alloc, &packet, THREE)?;
            Ok(again.as_slice() == frame && packet_len(&packet, THREE) == frame.len())
        }
        Err(DecodeFault::Malformed) => Ok(false),
        Err(DecodeFault::Memory) => Err(Memory),
    }
}

/// STABLE from a partition's actor to partition 2 of site 1, with the entries 0, 1, 2 and 3.
fn stable_from(alloc: Global, site: u8, actor: u8) -> Result<Vec<u8>, Memory> {
    let mut frame = Vec::from_slice(alloc, &[0, 0, 0, 38, 1, 8, site, actor, 1, 2])?;
    for entry in [0, 1, 2, 3] {
        frame.extend_from_slice(&[0, 0, 0, 0, 0, 0, 0, entry])?;
    }
    Ok(frame)
}

#[test]
fn sites_and_actors_of_a_larger_store(rt: HostRuntime) -> Result<(), Fail> {
    let alloc = rt.alloc();
    let frame = stable_from(alloc, 3, 2)?;
    assert!(rt; is_of_three(alloc, frame.as_slice())?);
    assert!(rt;
        packet_of(alloc, frame.as_slice())?.is_none(),
        "in a store of one site"
    );
    for (site, actor) in [(0, 2), (4, 2), (3, 3)] {
        let frame = stable_from(alloc, site, actor)?;
        assert!(rt; !is_of_three(alloc, frame.as_slice())?);
    }
    Ok(())
}
