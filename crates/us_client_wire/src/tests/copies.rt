use crate::{Reply, Request};
use std::test::Fail;
use us_kind::Bytes;
use us_value::{Answer, Item, Op};

#[test]
fn copies_are_equal(rt: HostRuntime) -> Result<(), Fail> {
    let alloc = rt.alloc();
    let request = Request::Perform {
        item: Item {
            space: 1,
            id: Bytes::from_slice(alloc, b"a")?,
        },
        op: Op::RegisterWrite {
            value: Bytes::from_slice(alloc, b"x")?,
        },
    };
    let reply = Reply::Answered {
        at: 3,
        answer: Answer::Value {
            value: Bytes::from_slice(alloc, b"x")?,
        },
    };
    assert_eq!(rt; request.copy()?, request);
    assert_eq!(rt; reply.copy()?, reply);
    Ok(())
}
