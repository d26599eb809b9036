//! A session runs: its requests are performed in order, until one waits.
ghost use Rattle.std.specs.Prelude.{◌≡◌, OnOk};
ghost use Rattle.us_base.specs.Shape.{IsShape};
ghost use Rattle.us_model.specs.Sessions.{stays, run_session};

use crate::session::{perform_request, waits_for_nothing};
use std::alloc::Global;
use us_kind::Memory;
use us_model::{Context, QueuedRequest, Session};
use us_value::Catalog;

/// Performs the session's requests, until one waits.
pub fn run(
    alloc: Global,
    catalog: &Catalog,
    context: &mut Context,
    session: &mut Session,
) -> Result<(), Memory>
    requires { IsShape context.old.shape }
    ensures { OnOk result (stays context.new session.new ≡ run_session catalog.now context.old session.old) }
{
    'requests: while waits_for_nothing(session) && !session.requests.is_empty() {
        let QueuedRequest { at, request } = session.requests.remove(0);
        perform_request(alloc, catalog, context, session, at, request)?;
    }
    Ok(())
}
