use us_base::Vector;
use us_exec::{Done, SessionName};
use us_kind::{Bytes, Items, Tid};
use us_peer_wire::Packet;

/// What may happen at a site.
#[derive(Drop)]
pub enum Event {
    /// A client opens a session at a coordinator.
    Open {
        coord: u8,
    },
    /// A client's bytes come, 1 to 65,536 of them.
    Bytes {
        coord: u8,
        session: u64,
        bytes: Bytes,
    },
    /// A client closes a session.
    Close {
        coord: u8,
        session: u64,
    },
    /// A packet comes.
    Take {
        packet: Packet,
    },
}

/// What a step tells of itself to whoever runs the site.
#[derive(Drop)]
pub enum Note {
    Opened {
        coord: u8,
        session: u64,
    },
    Begun {
        tid: Tid,
        session: SessionName,
        snapshot: Vector,
    },
    Performed {
        tid: Tid,
        done: Done,
    },
    Decided {
        tid: Tid,
        vector: Vector,
    },
    Left {
        tid: Tid,
    },
    Refused {
        session: SessionName,
        at: u64,
        number: u8,
    },
}

/// The whole frame of one reply, for the client of a session. With `ends` the connection ends after it.
#[derive(Drop)]
pub struct ClientOut {
    pub coord: u8,
    pub session: u64,
    pub bytes: Bytes,
    pub ends: bool,
}

/// What a step gives out: packets in the order of sending, replies and notes in order.
#[derive(Drop)]
pub struct Outputs {
    pub packets: Items<Packet>,
    pub client: Items<ClientOut>,
    pub notes: Items<Note>,
}
