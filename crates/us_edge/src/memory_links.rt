ghost use Rattle.std.specs.Prelude.{◌≡◌, ◌≤◌, ◌↔◌, ◌∷◌, ◌++◌, [], IfOk, OnOk, OnErr, All, Some, None, MatchOption, IfSome, IsSome, IsTrue, true, false, length, is_err, if◌then◌else◌};
ghost use Rattle.us_edge.specs.Faults.{Rose};
ghost use Rattle.us_edge.specs.Links.{HasPiece, Polls, recorded, RecordsOrForgets, opened_by, connections_after, offered_to, IsOpen, AreDropsOfOpened, Drops};
ghost use Rattle.us_edge.specs.MemoryLinks.{RecordsFailed, next_of, with_outcome, with_send, offers_of, outcomes_of};
ghost use Rattle.us_edge.specs.Scripts.{saturating_suc, is_to_fail};

use crate::calls::Calls;
use crate::recording::Recording;
use crate::{Dropped, Failed, LinkInput, Links, Offer, Outcome, Plan, PollFault, StartFault};
use std::alloc::Global;
use std::collections::VecDeque;
use std::marker::Model;
use us_kind::Memory;

/// Links in memory, which tell all that they do. Some of their calls may be made to fail.
///
/// After a send for which they find no memory they tell neither what was offered nor how their calls ended.
#[derive(Drop)]
pub struct MemoryLinks {
    inputs: VecDeque<LinkInput>,
    plan: Option<Plan>,
    calls: Calls,
    // None once a send found no memory.
    kept: Option<Recording>,
    opened: Vec<u64>,
    // It has room for a drop of each connection.
    dropped: Vec<Dropped>,
}

impl Model for MemoryLinks {
    ghost use Rattle.std.specs.Prelude.{vec_capacity};
    ghost use Rattle.us_edge.specs.MemoryLinks.{MemoryLinks, IsInOrder};

    ghost Value = { MemoryLinks };

    ghost view = { λ a. record { coming = a.inputs.items; planned = a.plan; kept = a.kept; connections = record { opened = a.opened.items; dropped = a.dropped.items }; fails = a.calls.fails.items; calls = a.calls.made; faults = a.calls.faults } };

    ghost invariant = { λ a. IsInOrder a.inputs.items (record { opened = a.opened.items; dropped = a.dropped.items }) (vec_capacity a.dropped) };
}

impl MemoryLinks {
    /// The links that give these inputs, whose bytes are 1 to 65,536 each time.
    ///
    /// `fails` holds the numbers, from 1, of the calls that are to fail, of `start`, `poll` and both sends.
    pub fn new(alloc: Global, inputs: Vec<LinkInput>, fails: Vec<u64>) -> MemoryLinks
        requires { All HasPiece inputs.items }
        ensures { result ≡ record { coming = inputs.items; planned = None; kept = Some (record { offers = []; outcomes = [] }); connections = record { opened = []; dropped = [] }; fails = fails.items; calls = 0; faults = 0 } }
    {
        MemoryLinks {
            inputs: VecDeque::from_vec(inputs),
            plan: None,
            calls: Calls::new(fails),
            kept: Some(Recording::new(alloc)),
            opened: Vec::new(alloc),
            dropped: Vec::new(alloc),
        }
    }
}

impl MemoryLinks {
    /// What was offered so far, in order, unless memory was wanting.
    pub fn offered(&self) -> Option<&[Offer]>
        ensures { MatchOption result (offers_of self.now.kept ≡ None) (λ offers. offers_of self.now.kept ≡ Some offers.now) }
    {
        match &self.kept {
            None => None,
            Some(kept) => Some(kept.offers()),
        }
    }

    /// How the polls and the sends ended so far, in order, unless memory was wanting.
    pub fn outcomes(&self) -> Option<&[Outcome]>
        ensures { MatchOption result (outcomes_of self.now.kept ≡ None) (λ ends. outcomes_of self.now.kept ≡ Some ends.now) }
    {
        match &self.kept {
            None => None,
            Some(kept) => Some(kept.outcomes()),
        }
    }

    /// The connections that were opened, in order.
    pub fn opened(&self) -> &[u64]
        ensures { result.now ≡ self.now.connections.opened }
    {
        self.opened.as_slice()
    }

    /// The connections that were dropped, in order.
    pub fn dropped(&self) -> &[Dropped]
        ensures { result.now ≡ self.now.connections.dropped }
    {
        self.dropped.as_slice()
    }

    // How many bytes were offered to the connection, where this is told.
    fn offered_before(&self, conn: u64) -> u64
        ensures { IfSome (offers_of self.now.kept) (λ offers. result ≡ length (offered_to conn offers)) }
    {
        match &self.kept {
            None => 0,
            Some(kept) => kept.offered_to(conn),
        }
    }

    // Ends a call, and counts a fault where it failed.
    fn ended(&mut self, failed: bool) -> Result<(), Failed>
        ensures outcome { is_err result ≡ failed }
        ensures fault_counted { self.new ≡ record self.old { faults = if failed then saturating_suc self.old.faults else self.old.faults } }
    {
        if failed {
            self.calls.count_fault();
            return Err(Failed);
        }
        Ok(())
    }

    // Opens a connection once its drop has room and the outcome is kept.
    fn open(&mut self, conn: u64) -> Result<(), Memory>
        ensures ok { OnOk result (self.new ≡ record self.old { kept = with_outcome self.old.kept (Outcome.Polled (LinkInput.Opened conn)); connections = record { opened = self.old.connections.opened ++ conn ∷ []; dropped = self.old.connections.dropped } }) }
        ensures err { OnErr result (self.new ≡ self.old) }
    {
        self.opened.reserve(1)?;
        self.dropped.reserve(self.opened.len() + 1)?;
        let input = LinkInput::Opened { conn };
        keep(&mut self.kept, Outcome::Polled { input })?;
        self.opened.push(conn)?;
        Ok(())
    }

    // Keeps that the next input came, and opens its connection.
    fn keep_next(&mut self) -> Result<(), Memory>
        ensures ok { OnOk result (self.new ≡ record self.old { kept = with_outcome self.old.kept (Outcome.Polled (next_of self.old.coming)); connections = record { opened = opened_by (next_of self.old.coming) self.old.connections.opened; dropped = self.old.connections.dropped } }) }
        ensures err { OnErr result (self.new ≡ self.old) }
    {
        match self.inputs.front() {
            None => {
                let input = LinkInput::Nothing;
                keep(&mut self.kept, Outcome::Polled { input })
            }
            Some(LinkInput::Opened { conn }) => {
                let conn = *conn;
                self.open(conn)
            }
            Some(next) => {
                let input = next.copy()?;
                keep(&mut self.kept, Outcome::Polled { input })
            }
        }
    }
}

// Keeps how a call ended, where this is told.
fn keep(kept: &mut Option<Recording>, outcome: Outcome) -> Result<(), Memory>
    ensures ok { OnOk result (kept.new ≡ with_outcome kept.old outcome) }
    ensures err { OnErr result (kept.new ≡ kept.old) }
{
    match kept {
        None => Ok(()),
        Some(kept) => kept.keep(outcome),
    }
}

impl Links for MemoryLinks {
    ghost planned = { λ a. a.planned };

    ghost coming = { λ a. Some a.coming };

    ghost outcomes = { λ a. outcomes_of a.kept };

    ghost offered = { λ a. offers_of a.kept };

    ghost connections = { λ a. Some a.connections };

    ghost faults = { λ a. a.faults };

    fn start(&mut self, plan: &Plan) -> Result<(), StartFault>
        ensures ok { OnOk result (self.new.planned ≡ Some plan.now) }
        ensures err { OnErr result (self.new.planned ≡ None) }
        ensures inputs { Some self.new.coming ≡ Some self.old.coming }
        ensures ends { outcomes_of self.new.kept ≡ outcomes_of self.old.kept }
        ensures offers { offers_of self.new.kept ≡ offers_of self.old.kept }
        ensures kept { Some self.new.connections ≡ Some self.old.connections }
        ensures drops { AreDropsOfOpened (Some self.new.connections) }
        ensures cause { result ≡ Err StartFault.Failed → Rose self.old.faults self.new.faults }
        ensures counts { self.old.faults ≤ self.new.faults }

        // It fails as it is told.
        ensures failed { (result ≡ Err StartFault.Failed) ↔ IsTrue (is_to_fail self.old.fails self.old.calls) }
        ensures script { (self.new.fails ≡ self.old.fails) × (self.new.calls ≡ saturating_suc self.old.calls) }
        ensures faults { self.new.faults ≡ (if is_to_fail self.old.fails self.old.calls then saturating_suc self.old.faults else self.old.faults) }
    {
        self.plan = None;
        if self.calls.begin() {
            self.calls.count_fault();
            return Err(StartFault::Failed);
        }
        self.plan = Some(plan.copy()?);
        Ok(())
    }

    /// It makes the room for its outcome, and an input that opens a connection the room for its drop.
    fn poll(&mut self) -> Result<LinkInput, PollFault>
        requires { IsSome self.old.planned }
        ensures plan { self.new.planned ≡ self.old.planned }
        ensures offers { offers_of self.new.kept ≡ offers_of self.old.kept }
        ensures piece { IfOk result HasPiece }
        ensures input { IfOk result (λ input. Polls (Some self.old.coming) (Some self.new.coming) input) }
        ensures ends { IfOk result (λ input. outcomes_of self.new.kept ≡ recorded (outcomes_of self.old.kept) (Outcome.Polled input)) }
        ensures opened { IfOk result (λ input. Some self.new.connections ≡ connections_after input (Some self.old.connections)) }
        ensures drops { AreDropsOfOpened (Some self.new.connections) }
        ensures err { OnErr result ((Some self.new.coming ≡ Some self.old.coming) × (Some self.new.connections ≡ Some self.old.connections)) }
        ensures failed { result ≡ Err PollFault.Failed → outcomes_of self.new.kept ≡ recorded (outcomes_of self.old.kept) Outcome.PollFailed }
        ensures memory { result ≡ Err PollFault.Memory → outcomes_of self.new.kept ≡ outcomes_of self.old.kept }
        ensures cause { result ≡ Err PollFault.Failed → Rose self.old.faults self.new.faults }
        ensures counts { self.old.faults ≤ self.new.faults }

        // It fails as it is told.
        ensures failed_as_told { result ≡ Err PollFault.Failed → IsTrue (is_to_fail self.old.fails self.old.calls) }
        ensures fails_as_told { IsTrue (is_to_fail self.old.fails self.old.calls) → is_err result ≡ true }
        ensures script { (self.new.fails ≡ self.old.fails) × (self.new.calls ≡ saturating_suc self.old.calls) }
        ensures fault { result ≡ Err PollFault.Failed → self.new.faults ≡ saturating_suc self.old.faults }
        ensures no_fault { OnOk result (self.new.faults ≡ self.old.faults) }
        ensures memory_is_no_fault { result ≡ Err PollFault.Memory → self.new.faults ≡ self.old.faults }
    {
        if self.calls.begin() {
            keep(&mut self.kept, Outcome::PollFailed)?;
            self.calls.count_fault();
            return Err(PollFault::Failed);
        }
        self.keep_next()?;
        Ok(self.inputs.pop_front().unwrap_or(LinkInput::Nothing))
    }

    /// It is Failed too where it finds no memory, and then it tells no longer what was offered and how calls ended.
    fn send_client(&mut self, conn: u64, piece: &[u8]) -> Result<(), Failed>
        requires started { IsSome self.old.planned }
        requires open { IsOpen (Some self.old.connections) conn }
        ensures plan { self.new.planned ≡ self.old.planned }
        ensures inputs { Some self.new.coming ≡ Some self.old.coming }
        ensures kept { Some self.new.connections ≡ Some self.old.connections }
        ensures offers { OnOk result (offers_of self.new.kept ≡ recorded (offers_of self.old.kept) (Offer.Client conn piece.now)) }
        ensures ends { OnOk result (outcomes_of self.new.kept ≡ recorded (outcomes_of self.old.kept) (Outcome.ClientSent conn false)) }
        ensures failed_offers { OnErr result (RecordsOrForgets (offers_of self.old.kept) (offers_of self.new.kept) (Offer.Client conn piece.now)) }
        ensures failed_ends { OnErr result (RecordsOrForgets (outcomes_of self.old.kept) (outcomes_of self.new.kept) (Outcome.ClientSent conn true)) }
        ensures cause { OnErr result (Rose self.old.faults self.new.faults) }
        ensures counts { self.old.faults ≤ self.new.faults }

        // It fails as it is told, and then it keeps the bytes.
        ensures fails_as_told { IsTrue (is_to_fail self.old.fails self.old.calls) → is_err result ≡ true }
        ensures lost { OnErr result (RecordsFailed self.old self.new (Offer.Client conn piece.now) (Outcome.ClientSent conn true)) }
        ensures script { (self.new.fails ≡ self.old.fails) × (self.new.calls ≡ saturating_suc self.old.calls) }
        ensures faults { self.new.faults ≡ (if is_err result then saturating_suc self.old.faults else self.old.faults) }
    {
        let failed = self.calls.begin();
        match client_kept(self.kept.take(), conn, piece, failed) {
            Ok(kept) => {
                self.kept = kept;
                self.ended(failed)
            }
            Err(Memory) => self.ended(true),
        }
    }

    /// It is Failed too where it finds no memory, and then it tells no longer what was offered and how calls ended.
    fn send_peer(&mut self, site: u8, piece: &[u8]) -> Result<(), Failed>
        requires { IsSome self.old.planned }
        ensures plan { self.new.planned ≡ self.old.planned }
        ensures inputs { Some self.new.coming ≡ Some self.old.coming }
        ensures kept { Some self.new.connections ≡ Some self.old.connections }
        ensures offers { OnOk result (offers_of self.new.kept ≡ recorded (offers_of self.old.kept) (Offer.Peer site piece.now)) }
        ensures ends { OnOk result (outcomes_of self.new.kept ≡ recorded (outcomes_of self.old.kept) (Outcome.PeerSent site false)) }
        ensures failed_offers { OnErr result (RecordsOrForgets (offers_of self.old.kept) (offers_of self.new.kept) (Offer.Peer site piece.now)) }
        ensures failed_ends { OnErr result (RecordsOrForgets (outcomes_of self.old.kept) (outcomes_of self.new.kept) (Outcome.PeerSent site true)) }
        ensures cause { OnErr result (Rose self.old.faults self.new.faults) }
        ensures counts { self.old.faults ≤ self.new.faults }

        // It fails as it is told, and then it keeps the bytes.
        ensures fails_as_told { IsTrue (is_to_fail self.old.fails self.old.calls) → is_err result ≡ true }
        ensures lost { OnErr result (RecordsFailed self.old self.new (Offer.Peer site piece.now) (Outcome.PeerSent site true)) }
        ensures script { (self.new.fails ≡ self.old.fails) × (self.new.calls ≡ saturating_suc self.old.calls) }
        ensures faults { self.new.faults ≡ (if is_err result then saturating_suc self.old.faults else self.old.faults) }
    {
        let failed = self.calls.begin();
        match peer_kept(self.kept.take(), site, piece, failed) {
            Ok(kept) => {
                self.kept = kept;
                self.ended(failed)
            }
            Err(Memory) => self.ended(true),
        }
    }

    fn drop_client(&mut self, conn: u64)
        requires started { IsSome self.old.planned }
        requires open { IsOpen (Some self.old.connections) conn }
        ensures plan { self.new.planned ≡ self.old.planned }
        ensures inputs { Some self.new.coming ≡ Some self.old.coming }
        ensures ends { outcomes_of self.new.kept ≡ outcomes_of self.old.kept }
        ensures offers { offers_of self.new.kept ≡ offers_of self.old.kept }
        ensures dropped { Drops (Some self.old.connections) (Some self.new.connections) (offers_of self.old.kept) conn }
        ensures drops { AreDropsOfOpened (Some self.new.connections) }
        ensures counts { self.old.faults ≤ self.new.faults }

        // It is no call that can fail.
        ensures script { (self.new.fails ≡ self.old.fails) × (self.new.calls ≡ self.old.calls) × (self.new.faults ≡ self.old.faults) }
    {
        let before = self.offered_before(conn);
        let _ = self.dropped.push(Dropped { conn, before });
    }
}

// Keeps a send to a client, where sends are told.
fn client_kept(
    kept: Option<Recording>,
    conn: u64,
    piece: &[u8],
    failed: bool,
) -> Result<Option<Recording>, Memory>
    ensures { IfOk result (λ now. now ≡ with_send kept (Offer.Client conn piece.now) (Outcome.ClientSent conn failed)) }
{
    match kept {
        None => Ok(None),
        Some(kept) => Ok(Some(kept.with_client(conn, piece, failed)?)),
    }
}

// Keeps a send to another site, where sends are told.
fn peer_kept(
    kept: Option<Recording>,
    site: u8,
    piece: &[u8],
    failed: bool,
) -> Result<Option<Recording>, Memory>
    ensures { IfOk result (λ now. now ≡ with_send kept (Offer.Peer site piece.now) (Outcome.PeerSent site failed)) }
{
    match kept {
        None => Ok(None),
        Some(kept) => Ok(Some(kept.with_peer(site, piece, failed)?)),
    }
}
