use crate::read;
use std::alloc::Global;
use std::test::Fail;

/// The number of peers, the first of them, the last client, the tick and the suspicion of a text's nodes.
fn plan_text(alloc: Global, text: &str) -> Result<String, Fail> {
    let plan = read(alloc, text.as_bytes())?.plan.copy()?;
    let peer = plan.peers.as_slice().first().ok_or("no peer")?;
    let client = plan.clients.as_slice().last().ok_or("no client")?;
    let (count, peer, client) = (plan.peers.len(), peer.as_str(), client.as_str());
    let (tick, suspect) = (plan.tick, plan.suspect);
    Ok(format!(in alloc; "{count} {peer} {client} {tick} {suspect}")?)
}

#[test]
fn plans(rt: HostRuntime) -> Result<(), Fail> {
    for (text, want) in [
        ("", "1 127.0.0.1:7101 127.0.0.1:7201 50 10000"),
        ("sites = 3", "3 127.0.0.1:7101 127.0.0.1:7203 50 10000"),
        ("[node]", "1 127.0.0.1:7101 127.0.0.1:7201 50 10000"),
        (
            "[node]\npeers = ['a:1']\nsuspect = 7",
            "1 a:1 127.0.0.1:7201 50 7",
        ),
        (
            "sites = 3\n[node]\nclients = ['a:1', 'b:2', 'c:3']\ntick = 1000000000",
            "3 127.0.0.1:7101 c:3 1000000000 10000",
        ),
    ] {
        assert_eq!(rt; plan_text(rt.alloc(), text)?.as_str(), want, "{text:?}");
    }
    Ok(())
}

#[test]
fn plan_of_a_site(rt: HostRuntime) -> Result<(), Fail> {
    let text = "sites = 3\n[node]\npeers = ['a:1', 'b:2', 'c:3']";
    let config = read(rt.alloc(), text.as_bytes())?;
    let clients = config.plan.clients.as_slice().len();
    assert_eq!(rt; clients, 3);
    let plan = config.plan_for(2)?;
    assert_eq!(rt; plan.site, 2);
    assert_eq!(rt; plan.clients.as_str(), "127.0.0.1:7202");
    assert_eq!(rt; plan.peers.len(), 3);
    let last = plan.peers.as_slice().last().ok_or("no peer")?;
    assert_eq!(rt; last.as_str(), "c:3");
    Ok(())
}
