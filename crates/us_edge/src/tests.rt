ghost use Rattle.std.specs.Prelude.{◌≡◌, Some, IsSome, IfOk};
ghost use Rattle.us_edge.specs.Links.{IsOpen, AreDropsOfOpened};

use super::*;
use std::alloc::Global;
use std::test::Fail;
use us_kind::Items;

#[test]
fn reading_to_the_end(rt: HostRuntime) -> Result<(), Fail> {
    for (limit, per_call) in [(3, 1), (3, 2), (9, 65536)] {
        let bytes = Vec::from_slice(rt.alloc(), b"abc")?;
        let mut source = MemorySource::new(bytes, per_call, Vec::new(rt.alloc()));
        let bytes = read_all(rt.alloc(), &mut source, limit)?;
        assert_eq!(rt; bytes.as_slice(), b"abc".as_slice());
    }
    Ok(())
}

#[test]
fn reading_that_ends_early(rt: HostRuntime) -> Result<(), Fail> {
    for (fails, limit, want) in [
        (1, 3, ReadAllFault::Failed),
        (2, 3, ReadAllFault::Failed),
        (9, 2, ReadAllFault::TooLong),
    ] {
        let bytes = Vec::from_slice(rt.alloc(), b"abc")?;
        let fails = vec![in rt.alloc(); fails]?;
        let mut source = MemorySource::new(bytes, 2, fails);
        let fault = read_all(rt.alloc(), &mut source, limit).err();
        assert_eq!(rt; fault, Some(want));
    }
    Ok(())
}

#[test]
fn writing(rt: HostRuntime) -> Result<(), Fail> {
    for (fails, want) in [(9, "abc"), (1, ""), (3, "ab")] {
        let fails = vec![in rt.alloc(); fails]?;
        let mut sink = MemorySink::new(rt.alloc(), 1, fails);
        let written = write_all(&mut sink, b"abc");
        assert_eq!(rt; written.is_ok(), want.len() == 3);
        assert_eq!(rt; sink.written(), want.as_bytes());
    }
    Ok(())
}

#[test]
fn a_clock(rt: HostRuntime) -> Result<(), Fail> {
    let mut clock = ListClock::new(vec![in rt.alloc(); 5, 3]?);
    for want in [5, 3, 3] {
        assert_eq!(rt; clock.now(), want);
    }
    assert_eq!(rt; ListClock::new(Vec::new(rt.alloc())).now(), 0);
    Ok(())
}

// One site's plan, whose clients and site come at one address.
fn plan(alloc: Global) -> Result<Plan, Fail> {
    let clients = Text::of(String::from_str(alloc, "here:1")?);
    let mut peers = Items::new(alloc);
    peers.push(clients.copy()?)?;
    Ok(Plan {
        site: 1,
        clients,
        peers,
    })
}

#[test]
fn links_that_never_fail(rt: HostRuntime) -> Result<(), Fail> {
    let mut links = SureLinks::new(vec![in rt.alloc(); LinkInput::Opened { conn: 7 }]?);
    links.start(&plan(rt.alloc())?)?;
    assert!(rt; matches!(links.poll()?, LinkInput::Opened { conn: 7 }));
    assert!(rt; matches!(links.poll()?, LinkInput::Nothing));
    Ok(())
}

// The connection that the next input opens.
fn next_opened(links: &mut MemoryLinks) -> Result<u64, Fail>
    requires started { IsSome links.old.planned }
    requires drops { AreDropsOfOpened (Some links.old.connections) }
    ensures planned { links.new.planned ≡ links.old.planned }
    ensures open { IfOk result (IsOpen (Some links.new.connections)) }
{
    let LinkInput::Opened { conn } = links.poll()? else {
        return Err(Fail::from("no connection"));
    };
    Ok(conn)
}

// The fourth call, which is the second send, fails.
#[test]
fn links_that_tell(rt: HostRuntime) -> Result<(), Fail> {
    let inputs = vec![in rt.alloc(); LinkInput::Opened { conn: 7 }]?;
    let mut links = MemoryLinks::new(rt.alloc(), inputs, vec![in rt.alloc(); 4]?);
    links.start(&plan(rt.alloc())?)?;
    let conn = next_opened(&mut links)?;
    links.send_client(conn, b"ab")?;
    assert_eq!(rt; links.send_client(conn, b"c"), Err(Failed));
    links.drop_client(conn);
    assert_eq!(rt; links.opened(), [7].as_slice());
    assert_eq!(rt;
        links.dropped(),
        [Dropped { conn: 7, before: 3 }].as_slice()
    );
    let offers = links.offered().ok_or("what was offered isn't told")?;
    assert_eq!(rt; offers.len(), 2);
    assert!(rt;
        matches!(&offers[1], Offer::Client { conn: 7, bytes } if bytes.as_slice() == b"c".as_slice())
    );
    Ok(())
}

// The first call and the third fail.
#[test]
fn links_that_fail(rt: HostRuntime) -> Result<(), Fail> {
    let plan = plan(rt.alloc())?;
    let inputs = Vec::new(rt.alloc());
    let mut links = MemoryLinks::new(rt.alloc(), inputs, vec![in rt.alloc(); 1, 3]?);
    assert_eq!(rt; links.start(&plan), Err(StartFault::Failed));
    links.start(&plan)?;
    assert!(rt; matches!(links.poll(), Err(PollFault::Failed)));
    assert!(rt; matches!(links.poll()?, LinkInput::Nothing));
    links.send_peer(2, b"abc")?;
    let ends = links.outcomes().ok_or("how calls ended isn't told")?;
    assert!(rt;
        matches!(
            ends,
            [
                Outcome::PollFailed,
                Outcome::Polled { .. },
                Outcome::PeerSent {
                    site: 2,
                    failed: false
                }
            ]
        )
    );
    Ok(())
}
