ghost use Rattle.std.specs.Prelude.{◌≡◌, IfOk};

use us_kind::{Bytes, Memory};

/// A line of a schedule. Sites and coordinators are numbered from 1, actor 0 is the certifier.
#[derive(Drop)]
pub enum Line {
    /// A session is opened at the coordinator.
    Open {
        site: u8,
        coord: u8,
    },
    /// Bytes of the session's client, 1 to 65,536.
    Bytes {
        site: u8,
        coord: u8,
        session: u64,
        bytes: Bytes,
    },
    /// The session is closed.
    Close {
        site: u8,
        coord: u8,
        session: u64,
    },
    /// The actor's clock strikes.
    Tick {
        site: u8,
        actor: u8,
        clock: u64,
    },
    /// The packet of this number, from 1, is delivered.
    Deliver {
        number: u64,
    },
    /// The packets from one site to another are delivered.
    Flush {
        from: u8,
        to: u8,
    },
    /// The site's certifier takes the lead.
    Lead {
        site: u8,
    },
    /// The site forwards the transactions of another.
    Forward {
        site: u8,
        origin: u8,
    },
    /// The site is lost.
    Crash {
        site: u8,
    },
    /// All live sites exchange what they know, again and again.
    Settle {
        clock: u64,
        rounds: u64,
    },
}

impl Line {
    /// A copy of the line.
    pub fn copy(&self) -> Result<Line, Memory>
        ensures { IfOk result (λ copy. copy ≡ self.now) }
    {
        Ok(match self {
            Line::Open { site, coord } => Line::Open {
                site: *site,
                coord: *coord,
            },
            Line::Bytes {
                site,
                coord,
                session,
                bytes,
            } => Line::Bytes {
                site: *site,
                coord: *coord,
                session: *session,
                bytes: bytes.copy()?,
            },
            Line::Close {
                site,
                coord,
                session,
            } => Line::Close {
                site: *site,
                coord: *coord,
                session: *session,
            },
            Line::Tick { site, actor, clock } => Line::Tick {
                site: *site,
                actor: *actor,
                clock: *clock,
            },
            Line::Deliver { number } => Line::Deliver { number: *number },
            Line::Flush { from, to } => Line::Flush {
                from: *from,
                to: *to,
            },
            Line::Lead { site } => Line::Lead { site: *site },
            Line::Forward { site, origin } => Line::Forward {
                site: *site,
                origin: *origin,
            },
            Line::Crash { site } => Line::Crash { site: *site },
            Line::Settle { clock, rounds } => Line::Settle {
                clock: *clock,
                rounds: *rounds,
            },
        })
    }
}
