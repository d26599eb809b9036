ghost use Rattle.std.specs.Prelude.{◌≡◌, Some, None, All};
ghost use Rattle.us_edge.specs.Links.{HasPiece};

use crate::{Failed, LinkInput, Links, Plan, PollFault, StartFault};
use std::marker::Model;

/// Links in memory, which tell their inputs and never fail. They keep nothing of what is offered to them.
#[derive(Drop)]
pub struct SureLinks {
    // The last is the next.
    inputs: Vec<LinkInput>,
    plan: Option<Plan>,
}

impl Model for SureLinks {
    ghost use Rattle.std.specs.Prelude.{All, reverse};
    ghost use Rattle.us_edge.specs.Links.{HasPiece};
    ghost use Rattle.us_edge.specs.Sure.{SureLinks};

    ghost Value = { SureLinks };

    ghost view = { λ a. record { coming = reverse a.inputs.items; planned = a.plan } };

    ghost invariant = { λ a. All HasPiece a.inputs.items };
}

impl SureLinks {
    /// The links that give these inputs, whose bytes are 1 to 65,536 each time.
    pub fn new(mut inputs: Vec<LinkInput>) -> SureLinks
        requires { All HasPiece inputs.items }
        ensures { result ≡ record { coming = inputs.items; planned = None } }
    {
        inputs.reverse();
        SureLinks { inputs, plan: None }
    }
}

impl Links for SureLinks {
    ghost planned = { λ a. a.planned };

    ghost coming = { λ a. Some a.coming };

    ghost outcomes = { λ _. None };

    ghost offered = { λ _. None };

    ghost connections = { λ _. None };

    ghost faults = { λ _. 0 };

    fn start(&mut self, plan: &Plan) -> Result<(), StartFault> {
        self.plan = None;
        self.plan = Some(plan.copy()?);
        Ok(())
    }

    fn poll(&mut self) -> Result<LinkInput, PollFault> {
        Ok(self.inputs.pop().unwrap_or(LinkInput::Nothing))
    }

    fn send_client(&mut self, _conn: u64, _piece: &[u8]) -> Result<(), Failed> {
        Ok(())
    }

    fn send_peer(&mut self, _site: u8, _piece: &[u8]) -> Result<(), Failed> {
        Ok(())
    }

    fn drop_client(&mut self, _conn: u64) {}
}
