use super::fixtures::{NINE, TEN, TID, VECTOR, is_malformed};
use std::test::Fail;

#[test]
fn second_encodings_are_malformed(rt: HostRuntime) -> Result<(), Fail> {
    let alloc = rt.alloc();
    let write = &[0, 1, 1, 1, 0x61, 3, 6, 0, 2];
    let low = &[1, 1, 0, 0, 0, 0, 0, 0, 0, 2, 1];
    let high = &[1, 1, 0, 0, 0, 0, 0, 0, 0, 2, 2];
    assert!(rt; !is_malformed(alloc, 3, &[TID, VECTOR, write, low, high])?);
    assert!(rt;
        is_malformed(alloc, 3, &[TID, VECTOR, write, high, low])?,
        "tags out of order"
    );
    assert!(rt;
        is_malformed(alloc, 3, &[TID, VECTOR, write, low, low])?,
        "a tag twice"
    );
    let seventh = &[1, 1, 0x61, 7, 5];
    let eighth = &[1, 1, 0x61, 8, 5];
    assert!(rt; !is_malformed(alloc, 3, &[TID, VECTOR, &[0, 2], seventh, eighth])?);
    assert!(rt;
        is_malformed(alloc, 3, &[TID, VECTOR, &[0, 2], eighth, seventh])?,
        "writes out of order"
    );
    assert!(rt;
        is_malformed(alloc, 3, &[TID, VECTOR, &[0, 2], eighth, eighth])?,
        "a place twice"
    );
    let zeros = &[0; 16];
    assert!(rt;
        is_malformed(
            alloc,
            6,
            &[
                &[1],
                NINE,
                TEN,
                &[0, 2],
                TID,
                VECTOR,
                &[0, 0],
                TID,
                zeros,
                &[0, 0]
            ]
        )?
    );
    assert!(rt; is_malformed(alloc, 12, &[NINE, &[0, 0]])?, "no page");
    assert!(rt; !is_malformed(alloc, 12, &[NINE, &[0, 8], &[0; 8]])?);
    assert!(rt;
        is_malformed(alloc, 12, &[NINE, &[0, 9], &[0; 9]])?,
        "nine pages"
    );
    Ok(())
}
