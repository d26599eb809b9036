//! The sessions of a coordinator take an event in turn.
ghost use Rattle.std.specs.Prelude.{◌≡◌, ℕ, ◌<◌, OnOk, length, slice_index_or};
ghost use Rattle.us_base.specs.Shape.{IsShape};
ghost use Rattle.us_model.specs.Sessions.{stays};
ghost use Rattle.us_model.specs.declared.coordinator.Session.{Session};
ghost use Rattle.us_model.specs.Coordinators.{each_session, is_over};
ghost use Rattle.us_coord.specs.Order.{put_back};
ghost use Rattle.us_coord.specs.Steps.{acts};
ghost use Rattle.us_coord.specs.Table.{AreFound, Ascends, found_in, moved_on, runs};

use crate::table::{move_on, runs};
use std::alloc::Global;
use std::collections::HashMap;
use us_kind::{Memory, Tid};
use us_model::{Context, Session, Vote};
use us_peer_wire::Version;
use us_session::{close, run, take_bytes, take_prepared, take_version, waits_for_nothing};
use us_value::Catalog;

/// What each session is asked to do: the bytes, the version and the timestamp concern one of them at most.
#[derive(Drop)]
pub enum Turn<'a> {
    Bytes {
        catalog: &'a Catalog,
        number: u64,
        piece: &'a [u8],
    },
    Close {
        number: u64,
    },
    Version {
        version: &'a Version,
    },
    Prepared {
        one: Vote,
        tid: Tid,
    },
    Run {
        catalog: &'a Catalog,
    },
}

/// One session's turn.
fn act(
    alloc: Global,
    context: &mut Context,
    session: &mut Session,
    turn: &Turn<'_>,
) -> Result<(), Memory>
    requires site { context.old.me.site < 10 }
    requires shape { IsShape context.old.shape }
    ensures { OnOk result (stays context.new session.new ≡ acts turn.now context.old session.old) }
{
    match turn {
        Turn::Bytes {
            catalog,
            number,
            piece,
        } => take_bytes(alloc, catalog, context, session, *number, piece),
        Turn::Close { number } => close(alloc, context, session, *number),
        Turn::Version { version } => take_version(alloc, context, session, version),
        Turn::Prepared { one, tid } => take_prepared(alloc, context, session, *one, tid),
        Turn::Run { catalog } => run(alloc, catalog, context, session),
    }
}

/// One session's turn. The table then has the transaction that it runs.
fn take_turn(
    alloc: Global,
    context: &mut Context,
    session: &mut Session,
    table: &mut HashMap<u64, u64>,
    turn: &Turn<'_>,
) -> Result<(), Memory>
    requires site { context.old.me.site < 10 }
    requires shape { IsShape context.old.shape }
    ensures step { OnOk result (stays context.new session.new ≡ acts turn.now context.old session.old) }
    ensures table { OnOk result ((q : ℕ) → found_in table.new q ≡ moved_on session.old.number (runs session.old) (runs session.new) (found_in table.old) q) }
{
    let number = session.number;
    let was = runs(session);
    act(alloc, context, session, turn)?;
    move_on(table, number, was, runs(session))
}

/// Each session's turn, by number.
pub fn each(
    alloc: Global,
    context: &mut Context,
    sessions: &mut [Session],
    table: &mut HashMap<u64, u64>,
    turn: &Turn<'_>,
) -> Result<(), Memory>
    requires site { context.old.me.site < 10 }
    requires shape { IsShape context.old.shape }
    requires ascend { Ascends 0 sessions.old }
    requires found { AreFound (found_in table.old) context.old.seq sessions.old }
    ensures context { OnOk result (context.new ≡ (each_session (acts turn.now) context.old sessions.old).context) }
    ensures sessions { OnOk result (sessions.new ≡ (each_session (acts turn.now) context.old sessions.old).sessions) }
    ensures found { OnOk result (AreFound (found_in table.new) context.new.seq sessions.new) }
{
    for i in 0..sessions.len() {
        take_turn(alloc, context, &mut sessions[i], table, turn)?;
    }
    Ok(())
}

/// Whether the session is over: it is closed and commits nothing.
pub fn is_over(session: &Session) -> bool
    ensures { result ≡ is_over session.now }
{
    session.closed && waits_for_nothing(session)
}

/// The turn of the session at this place. It is forgotten where it is over then.
pub fn one(
    alloc: Global,
    context: &mut Context,
    sessions: &mut Vec<Session>,
    table: &mut HashMap<u64, u64>,
    place: usize,
    turn: &Turn<'_>,
) -> Result<(), Memory>
    requires site { context.old.me.site < 10 }
    requires shape { IsShape context.old.shape }
    requires place { place < length sessions.old.items }
    requires ascend { Ascends 0 sessions.old.items }
    requires found { AreFound (found_in table.old) context.old.seq sessions.old.items }
    ensures context { OnOk result ((s : Session) → s ≡ slice_index_or sessions.old.items place s → context.new ≡ (acts turn.now context.old s).context) }
    ensures sessions { OnOk result ((s : Session) → s ≡ slice_index_or sessions.old.items place s
        → sessions.new.items ≡ put_back sessions.old.items place (acts turn.now context.old s).session) }
    ensures found { OnOk result (AreFound (found_in table.new) context.new.seq sessions.new.items) }
{
    take_turn(alloc, context, &mut sessions[place], table, turn)?;
    if is_over(&sessions[place]) {
        sessions.remove(place);
    }
    Ok(())
}
