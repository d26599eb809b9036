use super::fixtures::{ALONE, THREE};
use crate::{DecodeFault, Reply, Request, decode_reply, encode_reply, encode_request};
use std::test::Fail;
use us_kind::Tid;

#[test]
fn what_is_encoded_is_encoded(rt: HostRuntime) -> Result<(), Fail> {
    let alloc = rt.alloc();
    let committed = encode_request(alloc, &Request::CommitCausal, ALONE)?;
    let bare: &[u8] = &[0, 0, 0, 2, 1, 3];
    assert_eq!(rt; committed.as_slice(), bare);
    let tid = Tid {
        site: 3,
        coord: 2,
        seq: 1,
    };
    let started = encode_reply(alloc, &Reply::Started { at: 1, tid }, THREE)?;
    let frame: &[u8] = &[
        0, 0, 0, 20, 1, 129, 0, 0, 0, 0, 0, 0, 0, 1, 3, 2, 0, 0, 0, 0, 0, 0, 0, 1,
    ];
    assert_eq!(rt; started.as_slice(), frame);
    assert_eq!(rt;
        decode_reply(alloc, frame, THREE),
        Ok(Reply::Started { at: 1, tid })
    );
    assert_eq!(rt;
        decode_reply(alloc, frame, ALONE),
        Err(DecodeFault::Malformed)
    );
    let refused = Reply::Refused { at: 1, number: 11 };
    let told = encode_reply(alloc, &refused, ALONE)?;
    let frame: &[u8] = &[0, 0, 0, 11, 1, 137, 0, 0, 0, 0, 0, 0, 0, 1, 11];
    assert_eq!(rt; told.as_slice(), frame);
    Ok(())
}
