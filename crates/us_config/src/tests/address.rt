use crate::is_address;
use std::alloc::Global;
use std::test::Fail;

#[test]
fn addresses(rt: HostRuntime) {
    for (text, want) in [
        ("127.0.0.1:7101", true),
        ("a:1", true),
        ("a:65535", true),
        ("a:65536", false),
        ("a:0", false),
        ("a:01", false),
        ("a:+1", false),
        ("a:", false),
        (":1", false),
        ("a", false),
        ("", false),
        ("a b:1", false),
        ("a:1:2", false),
        ("\u{e9}:1", false),
        ("[!]~:9", true),
    ] {
        assert_eq!(rt; is_address(text), want, "{text:?}");
    }
}

/// A host of this many letters, and a port.
fn host_of(alloc: Global, letters: usize) -> Result<String, Fail> {
    let mut text = String::new(alloc);
    for _ in 0..letters {
        text.push('a')?;
    }
    text.push_str(":80")?;
    Ok(text)
}

#[test]
fn long_hosts(rt: HostRuntime) -> Result<(), Fail> {
    let longest = host_of(rt.alloc(), 255)?;
    assert!(rt; is_address(longest.as_str()));
    let longer = host_of(rt.alloc(), 256)?;
    assert!(rt; !is_address(longer.as_str()));
    Ok(())
}
