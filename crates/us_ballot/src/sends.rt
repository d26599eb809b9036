//! Messages to the other sites.
ghost use Rattle.std.specs.Prelude.{◌≡◌, ◌≤◌, ◌<◌, ◌++◌, ◌∷◌, [], OnOk, IfOk};
ghost use Rattle.us_ballot_model.specs.Ballots.{to_others};
ghost use Rattle.us_ballot_model.specs.Rules.{sending};
ghost use Rattle.us_ballot.specs.Outs.{onto};

use crate::copies::copy_message;
use std::alloc::Global;
use us_ballot_model::{BallotLog, BallotMessage, BallotOut};
use us_kind::{Items, Memory, Slot};

/// Nothing yet.
pub fn nothing<E: Slot>(alloc: Global) -> BallotOut<E>
    ensures { result ≡ record { sends = []; chosen = [] } }
{
    BallotOut {
        sends: Items::new(alloc),
        chosen: Items::new(alloc),
    }
}

/// Sends a message to one site.
pub fn send<E: Slot>(
    to: u8,
    message: BallotMessage<E>,
    out: &mut BallotOut<E>,
) -> Result<(), Memory>
    ensures { OnOk result (out.new ≡ record out.old { sends = out.old.sends ++ (to, message) ∷ [] }) }
{
    out.sends.push((to, message))?;
    Ok(())
}

/// Sends the message to every other site.
pub fn send_to_others<E: Slot>(
    alloc: Global,
    log: &BallotLog<E>,
    message: &BallotMessage<E>,
    out: &mut BallotOut<E>,
) -> Result<(), Memory>
    requires { log.now.f ≤ 4 }
    ensures { OnOk result (out.new ≡ record out.old { sends = out.old.sends ++ to_others log.now message.now }) }
{
    for j in 1..2 * log.f + 2 {
        if j != log.site {
            send(j, copy_message(alloc, message)?, out)?;
        }
    }
    Ok(())
}
