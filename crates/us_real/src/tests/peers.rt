ghost use Rattle.std.specs.Prelude.{IfOk, IsSome};

use super::fixtures::{Alone, TRIES, free_address, lone_site, next_input, started};
use crate::TcpLinks;
use std::test::Fail;
use us_edge::{LinkInput, Links};

#[test]
fn a_send_to_nobody(rt: HostRuntime) -> Result<(), Fail> {
    let Alone {
        clients: _,
        mut links,
    } = lone_site(&rt)?;
    for site in [0, 1, 2, 3] {
        assert!(rt; links.send_peer(site, b"a").is_err(), "{site}");
    }
    Ok(())
}

/// Two sites that link with each other.
#[derive(Drop)]
struct Sites {
    first: TcpLinks,
    second: TcpLinks,
}

fn two_sites(rt: &HostRuntime) -> Result<Sites, Fail>
    ensures first { IfOk result (λ sites. IsSome sites.first.planned) }
    ensures second { IfOk result (λ sites. IsSome sites.second.planned) }
{
    for _ in 0..TRIES {
        let peers = [free_address(rt)?, free_address(rt)?];
        let Some(first) = started(rt, 1, free_address(rt)?, peers)? else {
            continue;
        };
        if let Some(second) = started(rt, 2, free_address(rt)?, peers)? {
            return Ok(Sites { first, second });
        }
    }
    Err(Fail::from("no free ports"))
}

#[test]
fn another_site(rt: HostRuntime) -> Result<(), Fail> {
    let Sites {
        mut first,
        mut second,
    } = two_sites(&rt)?;
    for piece in [b"ab", b"cd"] {
        first.send_peer(2, piece)?;
        match next_input(&rt, &mut second)? {
            LinkInput::PeerBytes { site: 1, bytes } => assert_eq!(rt;
                bytes.as_slice(),
                piece.as_slice()
            ),
            _other => return Err(Fail::from("no bytes")),
        }
    }
    drop(first);
    let ended = next_input(&rt, &mut second)?;
    assert!(rt; matches!(ended, LinkInput::PeerReset { site: 1 }));
    Ok(())
}
