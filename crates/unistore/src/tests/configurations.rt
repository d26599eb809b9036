//! Configurations that are refused.
use super::runs::answered;
use crate::{Reason, Status};
use std::alloc::Global;
use std::test::Fail;
use us_config::{ConfigFault, Key};

/// Whether the input is refused for this key's fault, by this line.
fn refused(
    alloc: Global,
    input: &str,
    key: Key,
    fault: ConfigFault,
    want: &str,
) -> Result<bool, Fail> {
    let outcome = answered(alloc, "replay", input)?;
    let status = Status::Input {
        line: 0,
        reason: Reason::Config { key, fault },
    };
    Ok(outcome.status == status && outcome.written.as_slice() == want.as_bytes())
}

#[test]
fn a_text_that_is_no_toml(rt: HostRuntime) -> Result<(), Fail> {
    let want = "refused config top NotToml\n";
    for input in ["sites = = 3\n---\n", "open 1 1\n---\n"] {
        assert!(rt;
            refused(rt.alloc(), input, Key::Top, ConfigFault::NotToml, want)?,
            "{input}"
        );
    }
    Ok(())
}

#[test]
fn an_unknown_key(rt: HostRuntime) -> Result<(), Fail> {
    let want = "refused config top WrongKey\n";
    assert!(rt;
        refused(
            rt.alloc(),
            "colour = 1\n---\n",
            Key::Top,
            ConfigFault::WrongKey,
            want
        )?
    );
    Ok(())
}

#[test]
fn an_even_number_of_sites(rt: HostRuntime) -> Result<(), Fail> {
    let want = "refused config sites OutOfLimit\n";
    assert!(rt;
        refused(
            rt.alloc(),
            "sites = 4\n---\n",
            Key::Sites,
            ConfigFault::OutOfLimit,
            want
        )?
    );
    Ok(())
}

#[test]
fn a_set_that_takes(rt: HostRuntime) -> Result<(), Fail> {
    let input = "[[space]]\nnumber = 1\nkind = \"set\"\nconflicts = [[\"take\",\"take\"]]\n---\n";
    let want = "refused config space.conflicts WrongValue\n";
    assert!(rt;
        refused(
            rt.alloc(),
            input,
            Key::SpaceConflicts,
            ConfigFault::WrongValue,
            want
        )?
    );
    Ok(())
}

/// A configuration's fault comes before a bad line, and before a store that isn't built.
#[test]
fn a_fault_before_the_lines(rt: HostRuntime) -> Result<(), Fail> {
    let input = "sites = 3\nnode = 1\n---\nsleep\n";
    let want = "refused config node WrongValue\n";
    assert!(rt; refused(rt.alloc(), input, Key::Node, ConfigFault::WrongValue, want)?);
    Ok(())
}

#[test]
fn more_sites_are_not_built(rt: HostRuntime) -> Result<(), Fail> {
    let outcome = answered(rt.alloc(), "replay", "sites = 3\n---\nsleep\n")?;
    let status = Status::Input {
        line: 0,
        reason: Reason::NotBuilt,
    };
    assert_eq!(rt; outcome.status, status);
    assert_eq!(rt;
        outcome.written.as_slice(),
        b"refused line 0 NotBuilt\n".as_slice()
    );
    Ok(())
}
