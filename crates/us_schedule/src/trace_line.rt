ghost use Rattle.std.specs.Prelude.{◌≡◌, IfOk};

use us_kind::{Bytes, Memory};

/// A line of a node's trace. Sites, coordinators and partitions are numbered from 1, actor 0 is the certifier.
#[derive(Drop)]
pub enum TraceLine {
    /// The trace is that of this site. It stands first.
    Node {
        site: u8,
    },
    /// A session is opened at the coordinator.
    Open {
        coord: u8,
    },
    /// Bytes of the session's client, 1 to 65,536.
    Bytes {
        coord: u8,
        session: u64,
        bytes: Bytes,
    },
    /// The session is closed.
    Close {
        coord: u8,
        session: u64,
    },
    /// The actor's clock strikes.
    Tick {
        actor: u8,
        clock: u64,
    },
    /// A packet is taken, from this site too. Its whole frame may have any length.
    Take {
        frame: Bytes,
    },
    /// The site's certifier takes the lead.
    Lead,
    /// The partition forwards the transactions of another site.
    Forward {
        part: u8,
        origin: u8,
    },
    /// A send to the site failed.
    Lost {
        site: u8,
    },
    /// A look at the links failed.
    NoPoll,
    /// What the site sent is no packet from it to this site.
    Bad {
        site: u8,
    },
    /// The node ended after so many turns. It stands last.
    End {
        turns: u64,
    },
}

impl TraceLine {
    /// A copy of the line.
    pub fn copy(&self) -> Result<TraceLine, Memory>
        ensures { IfOk result (λ copy. copy ≡ self.now) }
    {
        Ok(match self {
            TraceLine::Node { site } => TraceLine::Node { site: *site },
            TraceLine::Open { coord } => TraceLine::Open { coord: *coord },
            TraceLine::Bytes {
                coord,
                session,
                bytes,
            } => TraceLine::Bytes {
                coord: *coord,
                session: *session,
                bytes: bytes.copy()?,
            },
            TraceLine::Close { coord, session } => TraceLine::Close {
                coord: *coord,
                session: *session,
            },
            TraceLine::Tick { actor, clock } => TraceLine::Tick {
                actor: *actor,
                clock: *clock,
            },
            TraceLine::Take { frame } => TraceLine::Take {
                frame: frame.copy()?,
            },
            TraceLine::Lead => TraceLine::Lead,
            TraceLine::Forward { part, origin } => TraceLine::Forward {
                part: *part,
                origin: *origin,
            },
            TraceLine::Lost { site } => TraceLine::Lost { site: *site },
            TraceLine::NoPoll => TraceLine::NoPoll,
            TraceLine::Bad { site } => TraceLine::Bad { site: *site },
            TraceLine::End { turns } => TraceLine::End { turns: *turns },
        })
    }
}
