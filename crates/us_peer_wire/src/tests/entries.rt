use super::fixtures::entry;
use std::test::Fail;
use us_kind::{Memory, Slot};

/// Whether an entry of a ballot log equals its copy.
fn equals_its_copy<E: Slot>(entry: &E) -> Result<bool, Memory> {
    Ok(*entry == entry.copy()?)
}

#[test]
fn a_strong_transaction_is_an_entry_of_the_ballot_log(rt: HostRuntime) -> Result<(), Fail> {
    assert!(rt; equals_its_copy(&entry(rt.alloc())?)?);
    Ok(())
}
