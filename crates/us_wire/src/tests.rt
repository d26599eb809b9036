use super::*;
use std::test::Fail;

const BEGIN: [u8; 6] = [0, 0, 0, 2, 1, 1];

const COMMIT: [u8; 7] = [0, 0, 0, 3, 1, 3, 9];

#[test]
fn a_frame_cut_at_each_byte(rt: HostRuntime) -> Result<(), Fail> {
    for cut in 0..6 {
        let mut reader = FrameReader::new(rt.alloc(), 65536);
        reader.feed(&BEGIN[..cut])?;
        assert!(rt;
            matches!(reader.next_frame()?, Next::NotYet),
            "cut at {cut}"
        );
        reader.feed(&BEGIN[cut..])?;
        match reader.next_frame()? {
            Next::Frame(frame) => assert_eq!(rt; frame.as_slice(), BEGIN.as_slice()),
            _ => assert!(rt; false, "no frame, cut at {cut}"),
        }
    }
    Ok(())
}

#[test]
fn length_fields(rt: HostRuntime) -> Result<(), Fail> {
    for (field, is_bad) in [
        ([0, 0, 0, 0], true),
        ([0, 0, 0, 1], true),
        ([0, 0, 0, 2], false),
        ([0, 0, 255, 252], false),
        ([0, 0, 255, 253], true),
    ] {
        let mut reader = FrameReader::new(rt.alloc(), 65536);
        reader.feed(&field)?;
        let refused = matches!(reader.next_frame()?, Next::BadLength);
        assert_eq!(rt; refused, is_bad, "{field:?}");
    }
    Ok(())
}

#[test]
fn two_frames_and_a_half(rt: HostRuntime) -> Result<(), Fail> {
    let mut reader = FrameReader::new(rt.alloc(), 65536);
    reader.feed(&[0, 0, 0, 2, 1, 1, 0, 0, 0, 3, 1, 3, 9, 0, 0, 0])?;
    for want in [BEGIN.as_slice(), COMMIT.as_slice()] {
        match reader.next_frame()? {
            Next::Frame(frame) => assert_eq!(rt; frame.as_slice(), want),
            _ => assert!(rt; false, "no frame"),
        }
    }
    assert!(rt; matches!(reader.next_frame()?, Next::NotYet));
    Ok(())
}

#[test]
fn numbers_are_written(rt: HostRuntime) -> Result<(), Fail> {
    let mut out = Vec::new(rt.alloc());
    put_u8(&mut out, 200)?;
    put_u16(&mut out, 0x0102)?;
    put_u32(&mut out, 0x0102_0304)?;
    put_u64(&mut out, 5)?;
    put_i64(&mut out, -2)?;
    put_value(&mut out, b"hi")?;
    let want =
        b"\xc8\x01\x02\x01\x02\x03\x04\0\0\0\0\0\0\0\x05\xff\xff\xff\xff\xff\xff\xff\xfe\0\x02hi";
    assert_eq!(rt; out.as_slice(), want.as_slice());
    Ok(())
}

#[test]
fn numbers_are_read(rt: HostRuntime) {
    let bytes = b"\x01\x02\xff\xff\xff\xff\xff\xff\xff\xfe";
    assert_eq!(rt; take_u8(bytes, 9), Some((0xfe, 10)));
    assert_eq!(rt; take_u8(bytes, 10), None);
    assert_eq!(rt; take_u16(bytes, 0), Some((0x0102, 2)));
    assert_eq!(rt; take_u32(bytes, 0), Some((0x0102_ffff, 4)));
    assert_eq!(rt; take_u64(bytes, 3), None);
    assert_eq!(rt; take_i64(bytes, 2), Some((-2, 10)));
}

#[test]
fn numbers_of_sixteen_bytes(rt: HostRuntime) -> Result<(), Fail> {
    for (number, text) in [
        (i128::MIN, b"\x80\0\0\0\0\0\0\0\0\0\0\0\0\0\0\0"),
        (
            i128::MAX,
            b"\x7f\xff\xff\xff\xff\xff\xff\xff\xff\xff\xff\xff\xff\xff\xff\xff",
        ),
    ] {
        let mut out = Vec::new(rt.alloc());
        put_i128(&mut out, number)?;
        assert_eq!(rt; out.as_slice(), text.as_slice());
        assert_eq!(rt; take_i128(&out, 0), Some((number, 16)));
    }
    Ok(())
}

#[test]
fn the_longest_value(rt: HostRuntime) -> Result<(), Fail> {
    for (last, is_value) in [(0, true), (1, false)] {
        let mut bytes = vec![in rt.alloc(); 4, last]?;
        bytes.resize(1027, 7)?;
        assert_eq!(rt; take_value(&bytes, 0).is_some(), is_value);
    }
    Ok(())
}
