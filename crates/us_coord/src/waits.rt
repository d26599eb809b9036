//! The requests that wait.
ghost use Rattle.std.specs.Prelude.{◌≡◌, ◌++◌, OnOk};
ghost use Rattle.us_model.specs.Coordinators.{first_unanswered, waits_in};

use us_exec::{SessionName, WaitingRequest};
use us_kind::Memory;
use us_model::{Await, Session};
use us_peer_wire::Actor;

/// The count of a session's frames up to its first unanswered request.
fn first_unanswered(session: &Session) -> Option<u64>
    ensures { result ≡ first_unanswered session.now.requests session.now.waits }
{
    match &session.waits {
        Await::Nothing => match session.requests.as_slice().first() {
            None => None,
            Some(ask) => Some(ask.at),
        },
        Await::Version { at, .. } => Some(*at),
        Await::Prepared { at, .. } => Some(*at),
    }
}

/// The sessions of a coordinator that wait, in order, are put behind those that are there.
pub fn put_waits_in(
    me: &Actor,
    sessions: &[Session],
    waits: &mut Vec<WaitingRequest>,
) -> Result<(), Memory>
    ensures { OnOk result (waits.new.items ≡ waits.old.items ++ waits_in me.now.site me.now.actor sessions.now) }
{
    for session in sessions {
        if let Some(at) = first_unanswered(session) {
            if !session.closed {
                let session = SessionName {
                    site: me.site,
                    coord: me.actor,
                    number: session.number,
                };
                waits.push(WaitingRequest { session, at })?;
            }
        }
    }
    Ok(())
}
