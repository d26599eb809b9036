use crate::schedule_of;
use std::test::Fail;

/// What stands before the first transaction.
const BEGINNING: &str = "sites = 3
partitions = 4
[[space]]
number = 1
kind = \"register\"
[[space]]
number = 2
kind = \"counter\"
conflicts = [[\"take\",\"take\"]]
[[space]]
number = 3
kind = \"set\"
[[space]]
number = 4
kind = \"flag\"
[[space]]
number = 5
kind = \"multi\"
---
open 1 1
open 1 2
open 1 3
open 1 4
open 2 1
open 2 2
open 2 3
open 2 4
open 3 1
open 3 2
open 3 3
open 3 4
";

/// The one transaction of load 7 with a count of 1.
const ONE: &str =
    "bytes 2 2 1 000000020101000000060102020168030000000601020401640b0000000e010202016804ffffffffffffffad000000020103
flush 2 2
settle 2000 40
";

/// The last lines of load 7 with a count of 16: the sixteenth transaction is strong, and the sites settle behind it.
const LAST: &str = "bytes 3 1 1 0000000201010000000601020501630c00000006010201016601000000020104
flush 3 3
settle 16000 6
settle 17000 40
";

/// The bytes of the load of the greatest number and count.
const LONGEST: usize = 538_539;

#[test]
fn one_transaction(rt: HostRuntime) -> Result<(), Fail> {
    let text = schedule_of(rt.alloc(), 7, 1)?;
    let lines = text.strip_prefix(BEGINNING.as_bytes()).ok_or("begins")?;
    assert_eq!(rt; lines, ONE.as_bytes());
    Ok(())
}

#[test]
fn no_transaction(rt: HostRuntime) -> Result<(), Fail> {
    let text = schedule_of(rt.alloc(), 7, 0)?;
    let lines = text.strip_prefix(BEGINNING.as_bytes()).ok_or("begins")?;
    assert_eq!(rt; lines, b"settle 1000 40\n".as_slice());
    Ok(())
}

#[test]
fn sixteen_transactions(rt: HostRuntime) -> Result<(), Fail> {
    let text = schedule_of(rt.alloc(), 7, 16)?;
    assert!(rt; text.starts_with(BEGINNING.as_bytes()));
    assert!(rt; text.ends_with(LAST.as_bytes()));
    Ok(())
}

#[test]
fn the_longest(rt: HostRuntime) -> Result<(), Fail> {
    let text = schedule_of(rt.alloc(), u64::MAX, 5000)?;
    assert_eq!(rt; text.len(), LONGEST);
    Ok(())
}

#[test]
fn the_same_twice(rt: HostRuntime) -> Result<(), Fail> {
    let text = schedule_of(rt.alloc(), 12, 40)?;
    let again = schedule_of(rt.alloc(), 12, 40)?;
    assert_eq!(rt; text.as_slice(), again.as_slice());
    Ok(())
}
