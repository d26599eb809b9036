use super::fixtures::{ALONE, ATTACH, framed, is_whole, token};
use crate::{DecodeFault, Reply, decode_reply};
use std::alloc::Global;
use std::process::Abort;
use std::test::Fail;
use us_kind::{Bytes, Items, Memory, Tid};
use us_value::{Answer, Item};

/// The list of these texts.
fn values(alloc: Global, texts: &[&[u8]]) -> Result<Items<Bytes>, Memory> {
    let mut values = Items::new(alloc);
    for text in texts {
        values.push(Bytes::from_slice(alloc, text)?)?;
    }
    Ok(values)
}

/// The reply and the frame are each other's.
fn is_reply(rt: &impl Abort, alloc: Global, reply: Reply, frame: &[u8]) -> Result<(), Memory> {
    assert_eq!(rt; decode_reply(alloc, frame, ALONE), Ok(reply));
    is_whole(rt, alloc, frame)
}

#[test]
fn answers_are_read(rt: HostRuntime) -> Result<(), Fail> {
    let alloc = rt.alloc();
    let two = values(alloc, &[b"", b"ab"])?;
    let least: &[u8] = &[3, 128, 0, 0, 0, 0, 0, 0, 0, 0, 0, 0, 0, 0, 0, 0, 0];
    let greatest: &[u8] = &[
        3, 127, 255, 255, 255, 255, 255, 255, 255, 255, 255, 255, 255, 255, 255, 255, 255,
    ];
    let cases: [(Answer, &[u8]); 8] = [
        (Answer::Done, &[0]),
        (Answer::Nothing, &[1]),
        (
            Answer::Value {
                value: Bytes::from_slice(alloc, b"xy")?,
            },
            &[2, 0, 2, 0x78, 0x79],
        ),
        (Answer::Number { number: i128::MIN }, least),
        (Answer::Number { number: i128::MAX }, greatest),
        (
            Answer::Values { values: two },
            &[4, 0, 0, 0, 2, 0, 0, 0, 2, 0x61, 0x62],
        ),
        (Answer::Bit { yes: false }, &[5, 0]),
        (Answer::Bit { yes: true }, &[5, 1]),
    ];
    for (answer, bytes) in cases {
        let mut fields = Vec::from_slice(alloc, &[0, 0, 0, 0, 0, 0, 1, 4])?;
        fields.extend_from_slice(bytes)?;
        let frame = framed(alloc, 130, &fields)?;
        is_reply(&rt, alloc, Reply::Answered { at: 260, answer }, &frame)?;
    }
    Ok(())
}

#[test]
fn other_answers_are_malformed(rt: HostRuntime) -> Result<(), Fail> {
    let alloc = rt.alloc();
    let cases: [&[u8]; 6] = [
        &[6],
        &[5, 2],
        // out of order, one twice, a count that is too large
        &[4, 0, 0, 0, 2, 0, 1, 0x62, 0, 1, 0x61],
        &[4, 0, 0, 0, 2, 0, 1, 0x61, 0, 1, 0x61],
        &[4, 0, 0, 0, 2, 0, 1, 0x61],
        &[4, 255, 255, 255, 255, 0, 1, 0x61],
    ];
    for bytes in cases {
        let mut fields = Vec::from_slice(alloc, &[0, 0, 0, 0, 0, 0, 1, 4])?;
        fields.extend_from_slice(bytes)?;
        let frame = framed(alloc, 130, &fields)?;
        assert_eq!(rt;
            decode_reply(alloc, &frame, ALONE),
            Err(DecodeFault::Malformed)
        );
    }
    Ok(())
}

#[test]
fn replies_are_read(rt: HostRuntime) -> Result<(), Fail> {
    let alloc = rt.alloc();
    let tid = Tid {
        site: 1,
        coord: 1,
        seq: 258,
    };
    let item = Item {
        space: 255,
        id: Bytes::from_slice(alloc, b"a")?,
    };
    let told: &[u8] = &[1, 1, 0, 0, 0, 0, 0, 0, 1, 2];
    let conflict: &[u8] = &[1, 1, 0, 0, 0, 0, 0, 0, 1, 2, 255, 1, 0x61];
    for (reply, number, bytes) in [
        (Reply::Started { at: 7, tid }, 129, told),
        (
            Reply::Committed { at: 7, count: 513 },
            131,
            &[0, 0, 0, 0, 0, 0, 2, 1],
        ),
        (
            Reply::Aborted {
                at: 7,
                named: tid,
                item,
            },
            132,
            conflict,
        ),
        (Reply::Dropped { at: 7 }, 133, &[]),
        (Reply::Passed { at: 7 }, 134, &[]),
        (
            Reply::TokenIs {
                at: 7,
                token: token(),
            },
            135,
            &ATTACH[6..],
        ),
        (Reply::Attached { at: 7 }, 136, &[]),
        (Reply::Refused { at: 7, number: 11 }, 137, &[11]),
    ] {
        let mut fields = Vec::from_slice(alloc, &[0, 0, 0, 0, 0, 0, 0, 7])?;
        fields.extend_from_slice(bytes)?;
        let frame = framed(alloc, number, &fields)?;
        is_reply(&rt, alloc, reply, &frame)?;
    }
    Ok(())
}

/// What a node of one site offers to its first connection after BEGIN.
#[test]
fn the_reply_of_a_node_is_read(rt: HostRuntime) -> Result<(), Fail> {
    let alloc = rt.alloc();
    let mut offered = Vec::from_slice(alloc, &[0, 0, 0, 0x14, 1, 0x81, 0, 0, 0, 0, 0, 0, 0, 1])?;
    offered.extend_from_slice(&[1, 1, 0, 0, 0, 0, 0, 0, 0, 1])?;
    let tid = Tid {
        site: 1,
        coord: 1,
        seq: 1,
    };
    assert_eq!(rt;
        decode_reply(alloc, &offered, ALONE),
        Ok(Reply::Started { at: 1, tid })
    );
    Ok(())
}

// The causes of a refusal are 1 to 11.
#[test]
fn other_causes_are_malformed(rt: HostRuntime) -> Result<(), Fail> {
    let alloc = rt.alloc();
    for cause in [0, 12] {
        let frame = framed(alloc, 137, &[0, 0, 0, 0, 0, 0, 0, 7, cause])?;
        assert_eq!(rt;
            decode_reply(alloc, &frame, ALONE),
            Err(DecodeFault::Malformed)
        );
    }
    Ok(())
}
