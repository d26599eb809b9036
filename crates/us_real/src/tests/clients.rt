ghost use Rattle.std.specs.Prelude.{◌≡◌, IsSome};

use super::fixtures::{Alone, lone_site, next_input};
use crate::TcpLinks;
use std::io::{Read, Write};
use std::net::TcpStream;
use std::test::Fail;
use std::time::Duration;
use us_edge::{LinkInput, Links};
use us_kind::Bytes;

fn opened(rt: &HostRuntime, links: &mut TcpLinks) -> Result<u64, Fail>
    requires { IsSome links.old.planned }
    ensures { links.new.planned ≡ links.old.planned }
{
    match next_input(rt, links)? {
        LinkInput::Opened { conn } => Ok(conn),
        _other => Err(Fail::from("no connection")),
    }
}

fn client_bytes(rt: &HostRuntime, links: &mut TcpLinks) -> Result<Bytes, Fail>
    requires { IsSome links.old.planned }
    ensures { links.new.planned ≡ links.old.planned }
{
    match next_input(rt, links)? {
        LinkInput::ClientBytes { bytes, .. } => Ok(bytes),
        _other => Err(Fail::from("no bytes")),
    }
}

fn closed(rt: &HostRuntime, links: &mut TcpLinks) -> Result<u64, Fail>
    requires { IsSome links.old.planned }
    ensures { links.new.planned ≡ links.old.planned }
{
    match next_input(rt, links)? {
        LinkInput::ClientClosed { conn } => Ok(conn),
        _other => Err(Fail::from("not closed")),
    }
}

#[test]
fn a_client(rt: HostRuntime) -> Result<(), Fail> {
    let Alone { clients, mut links } = lone_site(&rt)?;
    let mut client = TcpStream::connect(&rt, clients)?;
    client.set_read_timeout(Some(Duration::from_secs(20)))?;
    let conn = opened(&rt, &mut links)?;
    for piece in [b"ab", b"cd"] {
        client.write_all(piece)?;
        let came = client_bytes(&rt, &mut links)?;
        assert_eq!(rt; came.as_slice(), piece.as_slice());
        links.send_client(conn, piece)?;
        let mut back = [0u8; 2];
        client.read_exact(&mut back)?;
        assert_eq!(rt; back.as_slice(), piece.as_slice());
    }
    drop(client);
    assert_eq!(rt; closed(&rt, &mut links)?, conn);
    assert!(rt; links.send_client(conn, b"ef").is_err());
    Ok(())
}

#[test]
fn a_thousand_connections(rt: HostRuntime) -> Result<(), Fail> {
    let Alone { clients, mut links } = lone_site(&rt)?;
    let mut last = 0;
    for _ in 0..1000 {
        let client = TcpStream::connect(&rt, clients)?;
        let conn = opened(&rt, &mut links)?;
        assert!(rt; conn > last);
        last = conn;
        drop(client);
        assert_eq!(rt; closed(&rt, &mut links)?, conn);
    }
    Ok(())
}
