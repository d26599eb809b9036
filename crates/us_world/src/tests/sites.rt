use std::alloc::Global;
use std::test::Fail;
use us_base::Shape;
use us_conflict::Conflicts;
use us_kind::Memory;
use us_model::{Event, Outputs, Settings};
use us_site::Site;
use us_value::{Catalog, Kind};

/// How many sessions of a site may be open.
const SESSIONS: u64 = 4096;

/// A site whose space 1 holds registers.
fn site_of_registers(alloc: Global) -> Result<Site, Memory> {
    let settings = Settings {
        shape: Shape { f: 0, parts: 1 },
        catalog: Catalog::new(alloc, &[(1, Kind::Register)])?,
        conflicts: Conflicts::new(alloc, &[])?,
    };
    Site::new(alloc, &settings, 1)
}

/// A step of a site. One that has stopped takes none.
fn step(alloc: Global, site: &mut Site, event: Event) -> Result<Outputs, Memory> {
    if site.stopped() {
        return Err(Memory);
    }
    site.step(alloc, event)
}

/// A client opens a session at coordinator 1.
fn open(alloc: Global, site: &mut Site) -> Result<Outputs, Memory> {
    step(alloc, site, Event::Open { coord: 1 })
}

/// Whether each of so many opens is told as an opened session, with nothing for the client.
fn each_opens(alloc: Global, site: &mut Site, opens: u64) -> Result<bool, Memory> {
    for _ in 0..opens {
        let out = open(alloc, site)?;
        if out.notes.len() != 1 || !out.client.is_empty() {
            return Ok(false);
        }
    }
    Ok(true)
}

#[test]
fn a_site_of_many_sessions(rt: HostRuntime) -> Result<(), Fail> {
    let alloc = rt.alloc();
    let mut site = site_of_registers(alloc)?;
    assert!(rt; each_opens(alloc, &mut site, SESSIONS)?);
    let refused = open(alloc, &mut site)?;
    assert!(rt; refused.notes.is_empty());
    assert!(rt; refused.packets.is_empty());
    assert_eq!(rt; refused.client.len(), 1);
    let reply = &refused.client.as_slice()[0];
    assert_eq!(rt;
        reply.bytes.as_slice(),
        [0, 0, 0, 0x0b, 1, 0x89, 0, 0, 0, 0, 0, 0, 0, 0, 0x0b].as_slice()
    );
    assert!(rt; reply.ends);
    assert_eq!(rt; (reply.coord, reply.session), (1, 0));
    Ok(())
}

// A session that is closed leaves its place to another.
#[test]
fn a_place_that_is_free_again(rt: HostRuntime) -> Result<(), Fail> {
    let alloc = rt.alloc();
    let mut site = site_of_registers(alloc)?;
    assert!(rt; each_opens(alloc, &mut site, SESSIONS)?);
    step(
        alloc,
        &mut site,
        Event::Close {
            coord: 1,
            session: 7,
        },
    )?;
    assert!(rt; each_opens(alloc, &mut site, 1)?);
    assert!(rt; !each_opens(alloc, &mut site, 1)?);
    Ok(())
}
