ghost use Rattle.std.specs.Prelude.{◌≡◌, ◌≤◌, ℕ, List, Option, Some, None, IsSome, IfOk, OnOk, OnErr, true, false};
ghost use Rattle.us_edge.specs.Faults.{Rose};

use crate::{Failed, PollFault, StartFault, Text};
use us_kind::{Bytes, Items, Memory};

/// What a node is to link with: its own site, the address at which its clients come, and the addresses of
/// all sites, by their numbers from 1.
#[derive(Drop)]
pub struct Plan {
    pub site: u8,
    pub clients: Text,
    pub peers: Items<Text>,
}

/// What came over the links. Bytes are 1 to 65,536 at a time.
#[derive(Drop)]
pub enum LinkInput {
    /// Nothing came.
    Nothing,
    /// A client opened a connection.
    Opened { conn: u64 },
    /// A client's connection gave bytes.
    ClientBytes { conn: u64, bytes: Bytes },
    /// A client closed its connection.
    ClientClosed { conn: u64 },
    /// Another site gave bytes.
    PeerBytes { site: u8, bytes: Bytes },
    /// The connection from another site ended, so its next bytes begin a stream anew.
    PeerReset { site: u8 },
}

/// Bytes that were offered, and for whom.
#[derive(Drop)]
pub enum Offer {
    /// To a client's connection.
    Client { conn: u64, bytes: Bytes },
    /// To another site.
    Peer { site: u8, bytes: Bytes },
}

/// How a look at the links or a send ended.
#[derive(Drop)]
pub enum Outcome {
    /// A look gave this.
    Polled { input: LinkInput },
    /// A look failed.
    PollFailed,
    /// Bytes were offered to a client's connection.
    ClientSent { conn: u64, failed: bool },
    /// Bytes were offered to another site.
    PeerSent { site: u8, failed: bool },
}

/// A connection that was dropped, and how many bytes had been offered to it before.
#[derive(Clone, Copy, Debug, PartialEq, Eq)]
pub struct Dropped {
    pub conn: u64,
    pub before: u64,
}

impl LinkInput {
    pub fn copy(&self) -> Result<LinkInput, Memory>
        ensures { IfOk result (λ copy. copy ≡ self.now) }
    {
        match self {
            LinkInput::Nothing => Ok(LinkInput::Nothing),
            LinkInput::Opened { conn } => Ok(LinkInput::Opened { conn: *conn }),
            LinkInput::ClientBytes { conn, bytes } => Ok(LinkInput::ClientBytes {
                conn: *conn,
                bytes: bytes.copy()?,
            }),
            LinkInput::ClientClosed { conn } => Ok(LinkInput::ClientClosed { conn: *conn }),
            LinkInput::PeerBytes { site, bytes } => Ok(LinkInput::PeerBytes {
                site: *site,
                bytes: bytes.copy()?,
            }),
            LinkInput::PeerReset { site } => Ok(LinkInput::PeerReset { site: *site }),
        }
    }
}

impl Plan {
    /// A copy of the plan.
    pub fn copy(&self) -> Result<Plan, Memory>
        ensures { IfOk result (λ copy. copy ≡ self.now) }
    {
        let mut peers = Items::new(self.peers.allocator());
        for peer in self.peers.as_slice() {
            peers.push(peer.copy()?)?;
        }
        Ok(Plan {
            site: self.site,
            clients: self.clients.copy()?,
            peers,
        })
    }
}

/// The connections of a node with its clients and with the other sites.
///
/// All calls but `start` ask that the last `start` answered Ok.
pub trait Links {
    ghost use Rattle.us_edge.specs.declared.links.Plan.{Plan};
    ghost use Rattle.us_edge.specs.declared.links.LinkInput.{LinkInput};
    ghost use Rattle.us_edge.specs.declared.links.Offer.{Offer};
    ghost use Rattle.us_edge.specs.declared.links.Outcome.{Outcome};
    ghost use Rattle.us_edge.specs.Links.{Connections, recorded, RecordsOrForgets, HasPiece, Polls, connections_after, IsOpen, AreDropsOfOpened, Drops};

    // The plan with which the last start answered Ok. There is none after one that failed.
    ghost planned: { Self → Option Plan };

    // The inputs still to come, where the links tell them.
    ghost coming: { Self → Option (List LinkInput) };

    // How the polls and the sends ended so far, where the links tell it.
    ghost outcomes: { Self → Option (List Outcome) };

    // What was offered to clients and to sites so far, in failed sends too, where the links tell it.
    ghost offered: { Self → Option (List Offer) };

    // The connections that were opened and dropped so far, where the links tell them.
    ghost connections: { Self → Option Connections };

    // How many of the calls failed, which never falls.
    ghost faults: { Self → ℕ };

    /// Begins to listen where the plan says. It connects to nobody.
    fn start(&mut self, plan: &Plan) -> Result<(), StartFault>
        ensures ok { OnOk result (planned self.new ≡ Some plan.now) }
        ensures err { OnErr result (planned self.new ≡ None) }
        ensures inputs { coming self.new ≡ coming self.old }
        ensures ends { outcomes self.new ≡ outcomes self.old }
        ensures offers { offered self.new ≡ offered self.old }
        ensures kept { connections self.new ≡ connections self.old }
        ensures drops { AreDropsOfOpened (connections self.new) }
        ensures cause { result ≡ Err StartFault.Failed → Rose (faults self.old) (faults self.new) }
        ensures counts { faults self.old ≤ faults self.new };

    /// Looks once at the connections, and gives what came. After `Memory` nothing has changed.
    fn poll(&mut self) -> Result<LinkInput, PollFault>
        requires { IsSome (planned self.old) }
        ensures plan { planned self.new ≡ planned self.old }
        ensures offers { offered self.new ≡ offered self.old }

        // An input is the next one, and its bytes are 1 to 65,536.
        ensures piece { IfOk result HasPiece }
        ensures input { IfOk result (λ input. Polls (coming self.old) (coming self.new) input) }
        ensures ends { IfOk result (λ input. outcomes self.new ≡ recorded (outcomes self.old) (Outcome.Polled input)) }
        ensures opened { IfOk result (λ input. connections self.new ≡ connections_after input (connections self.old)) }
        ensures drops { AreDropsOfOpened (connections self.new) }

        // A failure gives none.
        ensures err { OnErr result ((coming self.new ≡ coming self.old) × (connections self.new ≡ connections self.old)) }
        ensures failed { result ≡ Err PollFault.Failed → outcomes self.new ≡ recorded (outcomes self.old) Outcome.PollFailed }
        ensures memory { result ≡ Err PollFault.Memory → outcomes self.new ≡ outcomes self.old }
        ensures cause { result ≡ Err PollFault.Failed → Rose (faults self.old) (faults self.new) }
        ensures counts { faults self.old ≤ faults self.new };

    /// Offers bytes to a client's connection, which was opened more often than it was dropped.
    fn send_client(&mut self, conn: u64, piece: &[u8]) -> Result<(), Failed>
        requires started { IsSome (planned self.old) }
        requires open { IsOpen (connections self.old) conn }
        ensures plan { planned self.new ≡ planned self.old }
        ensures inputs { coming self.new ≡ coming self.old }
        ensures kept { connections self.new ≡ connections self.old }
        ensures offers { OnOk result (offered self.new ≡ recorded (offered self.old) (Offer.Client conn piece.now)) }
        ensures ends { OnOk result (outcomes self.new ≡ recorded (outcomes self.old) (Outcome.ClientSent conn false)) }

        // Links that find no memory for what they keep tell it no longer.
        ensures failed_offers { OnErr result (RecordsOrForgets (offered self.old) (offered self.new) (Offer.Client conn piece.now)) }
        ensures failed_ends { OnErr result (RecordsOrForgets (outcomes self.old) (outcomes self.new) (Outcome.ClientSent conn true)) }
        ensures cause { OnErr result (Rose (faults self.old) (faults self.new)) }
        ensures counts { faults self.old ≤ faults self.new };

    /// Offers bytes to another site.
    fn send_peer(&mut self, site: u8, piece: &[u8]) -> Result<(), Failed>
        requires { IsSome (planned self.old) }
        ensures plan { planned self.new ≡ planned self.old }
        ensures inputs { coming self.new ≡ coming self.old }
        ensures kept { connections self.new ≡ connections self.old }
        ensures offers { OnOk result (offered self.new ≡ recorded (offered self.old) (Offer.Peer site piece.now)) }
        ensures ends { OnOk result (outcomes self.new ≡ recorded (outcomes self.old) (Outcome.PeerSent site false)) }

        // Links that find no memory for what they keep tell it no longer.
        ensures failed_offers { OnErr result (RecordsOrForgets (offered self.old) (offered self.new) (Offer.Peer site piece.now)) }
        ensures failed_ends { OnErr result (RecordsOrForgets (outcomes self.old) (outcomes self.new) (Outcome.PeerSent site true)) }
        ensures cause { OnErr result (Rose (faults self.old) (faults self.new)) }
        ensures counts { faults self.old ≤ faults self.new };

    /// Drops a client's connection, which was opened more often than it was dropped. It takes no memory.
    fn drop_client(&mut self, conn: u64)
        requires started { IsSome (planned self.old) }
        requires open { IsOpen (connections self.old) conn }
        ensures plan { planned self.new ≡ planned self.old }
        ensures inputs { coming self.new ≡ coming self.old }
        ensures ends { outcomes self.new ≡ outcomes self.old }
        ensures offers { offered self.new ≡ offered self.old }
        ensures dropped { Drops (connections self.old) (connections self.new) (offered self.old) conn }
        ensures drops { AreDropsOfOpened (connections self.new) }
        ensures counts { faults self.old ≤ faults self.new };
}
