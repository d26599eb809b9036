use crate::{ConfigFault, Key, ReadFault};
use std::test::Fail;

#[test]
fn names(rt: HostRuntime) -> Result<(), Fail> {
    for (key, want) in [
        (Key::Top, "top"),
        (Key::Sites, "sites"),
        (Key::Partitions, "partitions"),
        (Key::Space, "space"),
        (Key::SpaceNumber, "space.number"),
        (Key::SpaceKind, "space.kind"),
        (Key::SpaceConflicts, "space.conflicts"),
        (Key::Node, "node"),
        (Key::NodePeers, "node.peers"),
        (Key::NodeClients, "node.clients"),
        (Key::NodeTick, "node.tick"),
        (Key::NodeSuspect, "node.suspect"),
    ] {
        assert_eq!(rt; key.name(), want);
        assert_eq!(rt; key.to_string(rt.alloc())?.as_str(), want);
    }
    for fault in [
        ConfigFault::NotToml,
        ConfigFault::WrongKey,
        ConfigFault::WrongValue,
        ConfigFault::OutOfLimit,
    ] {
        assert_eq!(rt; fault.to_string(rt.alloc())?.as_str(), fault.name());
    }
    let memory = ReadFault::Memory.to_string(rt.alloc())?;
    assert_eq!(rt; memory.as_str(), "out of memory");
    Ok(())
}
