ghost use Rattle.std.specs.Prelude.{◌≡◌, IfOk, IfSome, IsSome};

use crate::TcpLinks;
use std::alloc::Global;
use std::net::{SocketAddr, TcpListener};
use std::test::Fail;
use std::thread;
use std::time::Duration;
use us_edge::{LinkInput, Links, Plan, Text};
use us_kind::Items;

/// How many looks a test waits for one input, a millisecond each.
const LOOKS: u32 = 20_000;

/// How often other ports are tried, where another process took one.
pub(crate) const TRIES: u32 = 20;

/// An address of this machine whose port was free a moment ago.
pub(crate) fn free_address(rt: &HostRuntime) -> Result<SocketAddr, Fail> {
    let listener = TcpListener::bind(rt, "127.0.0.1:0")?;
    Ok(listener.local_addr()?)
}

fn text_of(alloc: Global, address: SocketAddr) -> Result<Text, Fail> {
    Ok(Text::of(format!(in alloc; "{address}")?))
}

/// The plan of one of two sites.
pub(crate) fn plan_of(
    alloc: Global,
    site: u8,
    clients: SocketAddr,
    peers: [SocketAddr; 2],
) -> Result<Plan, Fail> {
    let mut addresses = Items::new(alloc);
    for peer in peers {
        addresses.push(text_of(alloc, peer)?)?;
    }
    Ok(Plan {
        site,
        clients: text_of(alloc, clients)?,
        peers: addresses,
    })
}

/// Links that were started at these addresses, or none where a port was taken.
pub(crate) fn started(
    rt: &HostRuntime,
    site: u8,
    clients: SocketAddr,
    peers: [SocketAddr; 2],
) -> Result<Option<TcpLinks>, Fail>
    ensures { IfOk result (λ started. IfSome started (λ links. IsSome links.planned)) }
{
    let plan = plan_of(rt.alloc(), site, clients, peers)?;
    let mut links = TcpLinks::new(rt.clone()?, rt.alloc());
    match links.start(&plan) {
        Ok(()) => Ok(Some(links)),
        Err(_fault) => Ok(None),
    }
}

/// Links of the first of two sites and where its clients come. The other site is at port 1, where nobody listens.
#[derive(Drop)]
pub(crate) struct Alone {
    pub(crate) clients: SocketAddr,
    pub(crate) links: TcpLinks,
}

pub(crate) fn lone_site(rt: &HostRuntime) -> Result<Alone, Fail>
    ensures { IfOk result (λ lone. IsSome lone.links.planned) }
{
    let nobody = SocketAddr::from(([127, 0, 0, 1], 1));
    for _ in 0..TRIES {
        let clients = free_address(rt)?;
        let peers = [free_address(rt)?, nobody];
        if let Some(links) = started(rt, 1, clients, peers)? {
            return Ok(Alone { clients, links });
        }
    }
    Err(Fail::from("no free ports"))
}

/// The next input, waited for.
pub(crate) fn next_input(rt: &HostRuntime, links: &mut TcpLinks) -> Result<LinkInput, Fail>
    requires { IsSome links.old.planned }
    ensures { links.new.planned ≡ links.old.planned }
{
    for _ in 0..LOOKS {
        match links.poll()? {
            LinkInput::Nothing => thread::sleep(rt, Duration::from_millis(1)),
            input => return Ok(input),
        }
    }
    Err(Fail::from("nothing came"))
}
