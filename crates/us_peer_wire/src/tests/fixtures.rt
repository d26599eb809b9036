use crate::{LogEntry, Packet, decode};
use std::alloc::Global;
use us_base::{Shape, Vector};
use us_fields::DecodeFault;
use us_kind::{Bytes, Items, Memory, Tag, Tid};
use us_value::{Class, Effect, Item, Write};

/// One site and one partition: vectors have two entries.
pub(crate) const ALONE: Shape = Shape { f: 0, parts: 1 };

/// From the partition to the certifier.
const ENDS: &[u8] = &[1, 1, 1, 0];

pub(crate) const NINE: &[u8] = &[0, 0, 0, 0, 0, 0, 0, 9];

pub(crate) const TEN: &[u8] = &[0, 0, 0, 0, 0, 0, 0, 10];

/// Transaction 1.1.5.
pub(crate) const TID: &[u8] = &[1, 1, 0, 0, 0, 0, 0, 0, 0, 5];

/// Strong 0, site 1 at 7.
pub(crate) const VECTOR: &[u8] = &[0, 0, 0, 0, 0, 0, 0, 0, 0, 0, 0, 0, 0, 0, 0, 7];

/// Item 1:a.
pub(crate) const ITEM: &[u8] = &[1, 1, 0x61];

/// One write on it at place 3: x is removed, with the tags 1.1.2 at place 1 and 1.1.4 at place 2.
pub(crate) const WRITES: &[u8] = &[
    0, 1, 1, 1, 0x61, 3, 4, 0, 1, 0x78, 0, 2, 1, 1, 0, 0, 0, 0, 0, 0, 0, 2, 1, 1, 1, 0, 0, 0, 0, 0,
    0, 0, 4, 2,
];

/// One touch: something is removed from item 1:a.
pub(crate) const TOUCHES: &[u8] = &[0, 1, 1, 1, 0x61, 6];

pub(crate) fn tid(seq: u64) -> Tid {
    Tid {
        site: 1,
        coord: 1,
        seq,
    }
}

pub(crate) fn vector() -> Vector {
    Vector::zero().with_entry(1, 7)
}

pub(crate) fn item(alloc: Global) -> Result<Item, Memory> {
    Ok(Item {
        space: 1,
        id: Bytes::from_slice(alloc, b"a")?,
    })
}

fn tags(alloc: Global) -> Result<Items<Tag>, Memory> {
    let mut tags = Items::new(alloc);
    tags.push(Tag {
        tid: tid(2),
        place: 1,
    })?;
    tags.push(Tag {
        tid: tid(4),
        place: 2,
    })?;
    Ok(tags)
}

pub(crate) fn writes(alloc: Global) -> Result<Items<Write>, Memory> {
    let effect = Effect::SetRemove {
        value: Bytes::from_slice(alloc, b"x")?,
        tags: tags(alloc)?,
    };
    one(
        alloc,
        Write {
            item: item(alloc)?,
            place: 3,
            effect,
        },
    )
}

pub(crate) fn one<T: Drop>(alloc: Global, value: T) -> Result<Items<T>, Memory> {
    let mut list = Items::new(alloc);
    list.push(value)?;
    Ok(list)
}

pub(crate) fn entry(alloc: Global) -> Result<LogEntry, Memory> {
    Ok(LogEntry {
        tid: tid(5),
        snapshot: vector(),
        touches: one(alloc, (item(alloc)?, Class::Remove))?,
        writes: writes(alloc)?,
    })
}

/// The whole frame with this tag and these fields, which have fewer than 65,000 bytes.
pub(crate) fn framed(alloc: Global, number: u8, parts: &[&[u8]]) -> Result<Vec<u8>, Memory> {
    let mut fields = Vec::from_slice(alloc, ENDS)?;
    for part in parts {
        fields.extend_from_slice(part)?;
    }
    let length = ((fields.len() + 2) % 65_536) as u16;
    let [high, low] = length.to_be_bytes();
    let mut frame = Vec::from_slice(alloc, &[0, 0, high, low, 1, number])?;
    frame.extend_from_slice(fields.as_slice())?;
    Ok(frame)
}

/// The packet that the frame is, or none where it is malformed.
pub(crate) fn packet_of(alloc: Global, frame: &[u8]) -> Result<Option<Packet>, Memory> {
    match decode(alloc, frame, ALONE) {
        Ok(packet) => Ok(Some(packet)),
        Err(DecodeFault::Malformed) => Ok(None),
        Err(DecodeFault::Memory) => Err(Memory),
    }
}

/// Whether no packet is encoded by the frame with this tag and these fields.
pub(crate) fn is_malformed(alloc: Global, number: u8, parts: &[&[u8]]) -> Result<bool, Memory> {
    let frame = framed(alloc, number, parts)?;
    Ok(packet_of(alloc, frame.as_slice())?.is_none())
}
