//! The transactions that were committed.
ghost use Rattle.std.specs.Prelude.{◌≡◌, ◌+◌, ◌++◌, ◌∷◌, [], ◌&&◌, true, Some, map, filter, max, IfOk, OnOk, OnErr, slice_get};
ghost use Rattle.us_history.specs.Histories.{committed_in};
ghost use Rattle.us_snapshots.specs.Ascending.{SessionsAscend};
ghost use Rattle.us_history.specs.Pasts.{count_of};
ghost use Rattle.us_extract.specs.PastSearch.{steps_to};
ghost use Rattle.us_extract.specs.PastSearch.{group_of, is_in_group, greatest, greatest_found, found_at, passes, number_of, is_earlier, is_earlier_of, is_shown, is_shown_of, IsSearchable, PassFirst};

use crate::beginnings::Beginning;
use crate::past::{has_own_vector, same_session};
use std::alloc::Global;
use std::marker::Model;
use us_base::Vector;
use us_exec::{Done, SessionName};
use us_index::Places;
use us_kind::{Items, Memory, checked_sum};

/// A transaction committed, the `number`-th of its session, from 1.
#[derive(Drop)]
pub struct Commit {
    pub begun: Beginning,
    pub number: u64,
    pub strong: bool,
    pub vector: Vector,
    pub ops: Items<Done>,
}

impl Model for Commit {
    ghost use Rattle.us_history.specs.Histories.{Committed};

    ghost Value = { Committed };

    ghost view = { λ a. record { begun = a.begun; number = a.number; strong = a.strong; vector = a.vector; ops = a.ops } };
}

/// The transactions of a session with a commit vector of their own, or those without.
#[derive(Clone, Copy, PartialEq, Eq, Hash)]
pub struct Group {
    pub session: SessionName,
    pub updates: bool,
}

/// The committed transactions, in order of decision, found by their groups.
#[derive(Drop)]
pub struct Commits {
    list: Vec<Commit>,
    groups: Places<Group>,
}

impl Model for Commits {
    ghost use Rattle.std.specs.Prelude.{List};
    ghost use Rattle.us_history.specs.Histories.{Committed};
    ghost use Rattle.us_extract.specs.PastSearch.{IsIndexed};

    ghost Value = { List Committed };

    ghost view = { λ a. a.list.items };

    ghost invariant = { λ a. IsIndexed a.list.items a.groups };
}

impl Commits {
    pub fn new(alloc: Global) -> Commits
        ensures { result ≡ [] }
    {
        Commits {
            list: Vec::new(alloc),
            groups: Places::new(alloc),
        }
    }

    pub fn as_slice(&self) -> &[Commit]
        ensures { result.now ≡ self.now }
    {
        self.list.as_slice()
    }

    /// The number of the next transaction of a session to commit.
    pub fn next_number(&self, session: &SessionName) -> Result<u64, Memory>
        ensures { IfOk result (λ number. number ≡ committed_in session.now self.now + 1) }
    {
        let updating = self.places(session, true).len() as u64;
        let reading = self.places(session, false).len() as u64;
        checked_sum(checked_sum(updating, reading)?, 1)
    }

    /// The greatest number of a transaction of the session that leads to this one. It is found by binary search: of a
    /// session's transactions that update those in a snapshot come first, and of this one's session those begun earlier.
    pub fn count_before(&self, session: &SessionName, transaction: &Beginning) -> u64
        requires { IsSearchable self.now transaction.now }
        ensures { result ≡ count_of (steps_to transaction.now) session.now self.now }
    {
        let shown = self.last_shown(session, &transaction.snapshot);
        if same_session(session, &transaction.session) {
            self.last_earlier(session, transaction.tid.seq).max(shown)
        } else {
            shown
        }
    }

    /// Adds a committed transaction at the end, which is the next of its session.
    pub fn push(&mut self, commit: Commit) -> Result<(), Memory>
        requires { commit.number ≡ committed_in commit.begun.session self.old + 1 }
        ensures ok { OnOk result (self.new ≡ self.old ++ commit ∷ []) }
        ensures err { OnErr result (self.new ≡ self.old) }
    {
        let group = group_of(&commit);
        self.list.push(commit)?;
        match self.groups.push(group) {
            Ok(()) => Ok(()),
            Err(Memory) => {
                self.list.pop();
                Err(Memory)
            }
        }
    }

    /// The places of a session's transactions that update, or of those that don't.
    fn places(&self, session: &SessionName, updates: bool) -> &[usize]
        ensures { found_at self.now result.now ≡ map Some (filter (is_in_group session.now updates) self.now) }
    {
        self.groups.of(&Group {
            session: *session,
            updates,
        })
    }

    /// The greatest number of a transaction of the session that was begun earlier than `seq`.
    fn last_earlier(&self, session: &SessionName, seq: u64) -> u64
        requires { SessionsAscend self.now }
        ensures { result ≡ greatest (is_earlier_of session.now seq) self.now }
    {
        let updating = self.last_earlier_in(session, true, seq);
        let reading = self.last_earlier_in(session, false, seq);
        updating.max(reading)
    }

    /// Of those that update, or of those that don't.
    fn last_earlier_in(&self, session: &SessionName, updates: bool, seq: u64) -> u64
        requires { SessionsAscend self.now }
        ensures { result ≡ greatest (λ c. is_in_group session.now updates c && is_earlier seq c) self.now }
    {
        earlier_at(self.list.as_slice(), self.places(session, updates), seq)
    }

    /// The greatest number of a transaction of the session that updates and is in the snapshot.
    fn last_shown(&self, session: &SessionName, snapshot: &Vector) -> u64
        requires { SessionsAscend self.now }
        ensures { result ≡ greatest (is_shown_of session.now snapshot.now) self.now }
    {
        shown_at(self.list.as_slice(), self.places(session, true), snapshot)
    }
}

fn group_of(commit: &Commit) -> Group
    ensures { result ≡ group_of commit.now }
{
    Group {
        session: commit.begun.session,
        updates: has_own_vector(commit),
    }
}

/// The greatest number at these places of a transaction that was begun earlier than `seq`.
fn earlier_at(list: &[Commit], places: &[usize], seq: u64) -> u64
    requires { PassFirst (is_earlier seq) (found_at list.now places.now) }
    ensures { result ≡ greatest_found (is_earlier seq) (found_at list.now places.now) }
{
    let count = places.partition_point(|place| is_earlier(list, *place, seq));
    if count == 0 {
        return 0;
    }
    number_at(list, places[count - 1])
}

/// The greatest number at these places of a transaction in the snapshot.
fn shown_at(list: &[Commit], places: &[usize], snapshot: &Vector) -> u64
    requires { PassFirst (is_shown snapshot.now) (found_at list.now places.now) }
    ensures { result ≡ greatest_found (is_shown snapshot.now) (found_at list.now places.now) }
{
    let count = places.partition_point(|place| is_shown(list, *place, snapshot));
    if count == 0 {
        return 0;
    }
    number_at(list, places[count - 1])
}

/// Whether the transaction at this place was begun earlier than `seq`.
fn is_earlier(list: &[Commit], place: usize, seq: u64) -> bool
    ensures { result ≡ passes (is_earlier seq) (slice_get list.now place) }
{
    place < list.len() && begun_before(&list[place], seq)
}

fn begun_before(commit: &Commit, seq: u64) -> bool
    ensures { result ≡ is_earlier seq commit.now }
{
    commit.begun.tid.seq < seq
}

/// Whether the transaction at this place is in the snapshot.
fn is_shown(list: &[Commit], place: usize, snapshot: &Vector) -> bool
    ensures { result ≡ passes (is_shown snapshot.now) (slice_get list.now place) }
{
    place < list.len() && is_within(&list[place], snapshot)
}

fn is_within(commit: &Commit, snapshot: &Vector) -> bool
    ensures { result ≡ is_shown snapshot.now commit.now }
{
    commit.vector.at_most(snapshot)
}

/// The number of the transaction at this place, and 0 where there is none.
fn number_at(list: &[Commit], place: usize) -> u64
    ensures { result ≡ number_of (slice_get list.now place) }
{
    if place < list.len() {
        number_of(&list[place])
    } else {
        0
    }
}

fn number_of(commit: &Commit) -> u64
    ensures { result ≡ commit.now.number }
{
    commit.number
}
