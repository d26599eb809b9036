use std::alloc::Global;
use us_kind::{Items, Memory, Stamp, Tag, Tid};

pub(crate) const ORDERS: [[usize; 4]; 24] = [
    [0, 1, 2, 3],
    [0, 1, 3, 2],
    [0, 2, 1, 3],
    [0, 2, 3, 1],
    [0, 3, 1, 2],
    [0, 3, 2, 1],
    [1, 0, 2, 3],
    [1, 0, 3, 2],
    [1, 2, 0, 3],
    [1, 2, 3, 0],
    [1, 3, 0, 2],
    [1, 3, 2, 0],
    [2, 0, 1, 3],
    [2, 0, 3, 1],
    [2, 1, 0, 3],
    [2, 1, 3, 0],
    [2, 3, 0, 1],
    [2, 3, 1, 0],
    [3, 0, 1, 2],
    [3, 0, 2, 1],
    [3, 1, 0, 2],
    [3, 1, 2, 0],
    [3, 2, 0, 1],
    [3, 2, 1, 0],
];

pub(crate) fn tag(seq: u64) -> Tag {
    Tag {
        tid: Tid {
            site: 1,
            coord: 1,
            seq,
        },
        place: 1,
    }
}

pub(crate) fn stamp(seq: u64) -> Stamp {
    Stamp {
        sum: 1,
        tid: tag(seq).tid,
        place: 1,
    }
}

pub(crate) fn tags(alloc: Global, seqs: &[u64]) -> Result<Items<Tag>, Memory> {
    let mut tags = Items::new(alloc);
    for seq in seqs {
        tags.push(tag(*seq))?;
    }
    Ok(tags)
}

pub(crate) fn are_tags(found: &Items<Tag>, seqs: &[u64]) -> bool {
    for (found, seq) in found.as_slice().iter().zip(seqs) {
        if *found != tag(*seq) {
            return false;
        }
    }
    found.len() == seqs.len()
}
