ghost use Rattle.std.specs.Prelude.{◌<◌, ◌≤◌, IfOk, IfSome, vec_len};
ghost use Rattle.us_edge.specs.Links.{HasPiece};

use crate::reading::{Came, MOST, read_from, would_block};
use crate::sending::{Sent, connected, send_all};
use std::alloc::Global;
use std::io;
use std::io::Read;
use std::net::{TcpListener, TcpStream};
use us_edge::{LinkInput, Plan, PollFault};
use us_kind::Memory;

/// A client's connection.
#[derive(Drop)]
struct Client {
    conn: u64,
    stream: TcpStream,
}

/// A connection by which another site sends. Its first byte is the site's number.
#[derive(Drop)]
struct Incoming {
    site: Option<u8>,
    stream: TcpStream,
}

/// A connection by which bytes go to another site.
#[derive(Drop)]
struct Outgoing {
    site: u8,
    stream: TcpStream,
}

/// All sockets of a node, none of which blocks.
#[derive(Drop)]
pub struct Connections {
    own: u8,
    sites: usize,
    for_clients: TcpListener,
    for_peers: TcpListener,
    clients: Vec<Client>,
    incoming: Vec<Incoming>,
    outgoing: Vec<Outgoing>,
    // Where bytes are read into, of full length before each look.
    buffer: Vec<u8>,
    // Where the next look begins.
    turn: usize,
}

impl Connections {
    /// Listens at the two addresses of the plan's site, and connects to nobody.
    pub fn new(rt: &HostRuntime, plan: &Plan) -> io::Result<Connections> {
        let own = usize::from(plan.site);
        let peers = plan.peers.as_slice();
        if own == 0 || own > peers.len() {
            return Err(io::Error::from(io::ErrorKind::InvalidInput));
        }
        let for_clients = listener(rt, plan.clients.as_str())?;
        let for_peers = listener(rt, peers[own - 1].as_str())?;
        let alloc = rt.alloc();
        Ok(Connections {
            own: plan.site,
            sites: peers.len(),
            for_clients,
            for_peers,
            clients: Vec::new(alloc),
            incoming: Vec::new(alloc),
            outgoing: Vec::new(alloc),
            buffer: Vec::new(alloc),
            turn: 0,
        })
    }

    /// Looks once round the sockets, beginning behind the one that gave something last. `next` is the number of the
    /// next connection.
    pub fn look(&mut self, next: &mut u64) -> Result<LinkInput, PollFault>
        ensures { IfOk result HasPiece }
    {
        self.make_room()?;
        for _ in 0..self.places() {
            let place = self.turn;
            self.turn = self.place_behind(place);
            if let Some(input) = self.look_at(place, next)? {
                return Ok(input);
            }
        }
        Ok(LinkInput::Nothing)
    }

    // How many sockets a look visits.
    fn places(&self) -> usize
        ensures { 2 ≤ result }
    {
        let connections = self.clients.len().saturating_add(self.incoming.len());
        connections.saturating_add(2)
    }

    fn place_behind(&self, place: usize) -> usize {
        if place < self.places() - 1 {
            place + 1
        } else {
            0
        }
    }

    // Makes all room that a look may need: for bytes, and for a connection of each kind.
    fn make_room(&mut self) -> Result<(), Memory> {
        if self.buffer.len() < MOST {
            self.buffer = vec![in *self.clients.allocator(); 0u8; MOST]?;
        }
        self.clients.reserve(1)?;
        self.incoming.reserve(1)?;
        Ok(())
    }

    // The listeners stand first, then the clients, then the other sites.
    fn look_at(&mut self, place: usize, next: &mut u64) -> Result<Option<LinkInput>, PollFault>
        ensures { IfOk result (λ found. IfSome found HasPiece) }
    {
        let clients = self.clients.len();
        if place == 0 {
            self.accept_client(next)
        } else if place == 1 {
            self.accept_peer()
        } else if place - 2 < clients {
            Ok(self.look_at_client(place - 2))
        } else if place - 2 - clients < self.incoming.len() {
            Ok(self.look_at_peer(place - 2 - clients))
        } else {
            Ok(None)
        }
    }

    fn accept_client(&mut self, next: &mut u64) -> Result<Option<LinkInput>, PollFault>
        ensures { IfOk result (λ found. IfSome found HasPiece) }
    {
        let Some(stream) = accepted(&self.for_clients)? else {
            return Ok(None);
        };
        let conn = *next;
        *next = conn.checked_add(1).ok_or(PollFault::Failed)?;
        self.clients
            .push(Client { conn, stream })
            .map_err(Memory::from)?;
        Ok(Some(LinkInput::Opened { conn }))
    }

    fn accept_peer(&mut self) -> Result<Option<LinkInput>, PollFault>
        ensures { IfOk result (λ found. IfSome found HasPiece) }
    {
        if let Some(stream) = accepted(&self.for_peers)? {
            let site = None;
            self.incoming
                .push(Incoming { site, stream })
                .map_err(Memory::from)?;
        }
        Ok(None)
    }

    fn look_at_client(&mut self, place: usize) -> Option<LinkInput>
        requires { place < vec_len self.old.clients }
        ensures { IfSome result HasPiece }
    {
        let client = &mut self.clients[place];
        let conn = client.conn;
        match read_from(&mut client.stream, &mut self.buffer) {
            Came::NotYet => None,
            Came::Ended => {
                let _ended = self.clients.remove(place);
                Some(LinkInput::ClientClosed { conn })
            }
            Came::Piece(bytes) => Some(LinkInput::ClientBytes { conn, bytes }),
        }
    }

    fn look_at_peer(&mut self, place: usize) -> Option<LinkInput>
        requires { place < vec_len self.old.incoming }
        ensures { IfSome result HasPiece }
    {
        let incoming = &mut self.incoming[place];
        let Some(site) = incoming.site else {
            return self.meet(place);
        };
        match read_from(&mut incoming.stream, &mut self.buffer) {
            Came::NotYet => None,
            Came::Ended => {
                let _ended = self.incoming.remove(place);
                Some(LinkInput::PeerReset { site })
            }
            Came::Piece(bytes) => Some(LinkInput::PeerBytes { site, bytes }),
        }
    }

    // Reads the number of the site that connected. An older connection from it ends.
    fn meet(&mut self, place: usize) -> Option<LinkInput>
        requires { place < vec_len self.old.incoming }
        ensures { IfSome result HasPiece }
    {
        let mut number = [0u8; 1];
        match self.incoming[place].stream.read(&mut number) {
            Ok(1) if self.is_other(number[0]) => self.met(place, number[0]),
            Err(error) if would_block(&error) => None,
            _ => {
                let _stranger = self.incoming.remove(place);
                None
            }
        }
    }

    fn is_other(&self, site: u8) -> bool {
        site > 0 && usize::from(site) <= self.sites && site != self.own
    }

    fn met(&mut self, place: usize, site: u8) -> Option<LinkInput>
        requires { place < vec_len self.old.incoming }
        ensures { IfSome result HasPiece }
    {
        let older = self
            .incoming
            .iter()
            .position(|other| other.site == Some(site));
        self.incoming[place].site = Some(site);
        match older {
            Some(older) => {
                let _older = self.incoming.remove(older);
                Some(LinkInput::PeerReset { site })
            }
            None => None,
        }
    }

    /// Sends to a client, and says whether all bytes went out. After a part of them its connection is closed.
    pub fn send_client(&mut self, conn: u64, piece: &[u8]) -> bool {
        let Some(place) = self.clients.iter().position(|client| client.conn == conn) else {
            return false;
        };
        let sent = send_all(&mut self.clients[place].stream, piece);
        if sent == Sent::Broken {
            let _broken = self.clients.remove(place);
        }
        sent == Sent::Whole
    }

    /// Sends to another site, over a new connection where none stands, and says whether all bytes went out. Nothing
    /// goes to the own site.
    /// After a part of them the connection is closed.
    pub fn send_peer(&mut self, rt: &HostRuntime, site: u8, address: &str, piece: &[u8]) -> bool {
        if site == self.own || !self.has_way_to(rt, site, address) {
            return false;
        }
        let Some(place) = self.outgoing.iter().position(|way| way.site == site) else {
            return false;
        };
        let sent = send_all(&mut self.outgoing[place].stream, piece);
        if sent == Sent::Broken {
            let _broken = self.outgoing.remove(place);
        }
        sent == Sent::Whole
    }

    // Whether a connection to the site stands, once one was tried.
    fn has_way_to(&mut self, rt: &HostRuntime, site: u8, address: &str) -> bool {
        if self.outgoing.iter().any(|way| way.site == site) {
            return true;
        }
        match connected(rt, address, self.own) {
            Ok(stream) => self.outgoing.push(Outgoing { site, stream }).is_ok(),
            Err(_error) => false,
        }
    }

    /// Drops a client's connection, where it still stands.
    pub fn drop_client(&mut self, conn: u64) {
        if let Some(place) = self.clients.iter().position(|client| client.conn == conn) {
            let _dropped = self.clients.remove(place);
        }
    }
}

fn listener(rt: &HostRuntime, address: &str) -> io::Result<TcpListener> {
    let listener = TcpListener::bind(rt, address)?;
    listener.set_nonblocking(true)?;
    Ok(listener)
}

// A connection that waits to be accepted, where there is one.
fn accepted(listener: &TcpListener) -> Result<Option<TcpStream>, PollFault> {
    match listener.accept() {
        Ok((stream, _address)) => match stream.set_nonblocking(true) {
            Ok(()) => Ok(Some(stream)),
            Err(_error) => Err(PollFault::Failed),
        },
        Err(error) if would_block(&error) => Ok(None),
        Err(_error) => Err(PollFault::Failed),
    }
}
