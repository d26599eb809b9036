ghost use Rattle.std.specs.Prelude.{◌≡◌, ◌≤◌, None, OnErr, is_ok};
ghost use Rattle.us_edge.specs.Faults.{Rose};

use crate::connections::Connections;
use std::alloc::Global;
use std::marker::Model;
use us_edge::{Failed, LinkInput, Links, Plan, PollFault, StartFault};

/// Links over TCP, by sockets that don't block.
///
/// A node listens at its own two addresses. It connects to another site when it first sends there, and then tells
/// it its own number as the first byte. Bytes from a site come over the connection that the site made.
#[derive(Drop)]
pub struct TcpLinks {
    rt: HostRuntime,
    alloc: Global,
    plan: Option<Plan>,
    connections: Option<Connections>,
    // The number of the next client's connection, which no start gives again.
    next: u64,
    faults: u64,
}

impl Model for TcpLinks {
    ghost use Rattle.us_real.specs.TcpLinks.{TcpLinks};

    ghost Value = { TcpLinks };

    ghost view = { λ a. record { planned = a.plan; faults = a.faults } };
}

impl TcpLinks {
    /// Links that aren't started yet.
    pub fn new(rt: HostRuntime, alloc: Global) -> TcpLinks
        ensures { result ≡ record { planned = None; faults = 0 } }
    {
        TcpLinks {
            rt,
            alloc,
            plan: None,
            connections: None,
            next: 1,
            faults: 0,
        }
    }

    // Ends a send, and counts a fault where not all bytes went out.
    fn ended(&mut self, sent: bool) -> Result<(), Failed>
        ensures planned { self.new.planned ≡ self.old.planned }
        ensures sent { is_ok result ≡ sent }
        ensures cause { OnErr result (Rose self.old.faults self.new.faults) }
        ensures counts { self.old.faults ≤ self.new.faults }
    {
        if !sent {
            count(&mut self.faults);
            return Err(Failed);
        }
        Ok(())
    }
}

// Counts a fault.
fn count(faults: &mut u64)
    ensures rose { Rose faults.old faults.new }
    ensures counts { faults.old ≤ faults.new }
{
    *faults = faults.saturating_add(1);
}

impl Links for TcpLinks {
    ghost planned = { λ a. a.planned };

    ghost coming = { λ _. None };

    ghost outcomes = { λ _. None };

    ghost offered = { λ _. None };

    ghost connections = { λ _. None };

    ghost faults = { λ a. a.faults };

    fn start(&mut self, plan: &Plan) -> Result<(), StartFault> {
        self.plan = None;
        self.connections = None;
        let kept = plan.copy()?;
        match Connections::new(&self.rt, plan) {
            Ok(connections) => {
                self.connections = Some(connections);
                self.plan = Some(kept);
                Ok(())
            }
            Err(_error) => {
                count(&mut self.faults);
                Err(StartFault::Failed)
            }
        }
    }

    fn poll(&mut self) -> Result<LinkInput, PollFault> {
        let looked = match &mut self.connections {
            Some(connections) => connections.look(&mut self.next),
            None => Err(PollFault::Failed),
        };
        match looked {
            Ok(input) => Ok(input),
            Err(PollFault::Memory) => Err(PollFault::Memory),
            Err(PollFault::Failed) => {
                count(&mut self.faults);
                Err(PollFault::Failed)
            }
        }
    }

    fn send_client(&mut self, conn: u64, piece: &[u8]) -> Result<(), Failed> {
        let sent = match &mut self.connections {
            Some(connections) => connections.send_client(conn, piece),
            None => false,
        };
        self.ended(sent)
    }

    fn send_peer(&mut self, site: u8, piece: &[u8]) -> Result<(), Failed> {
        let sent = match (&self.plan, &mut self.connections) {
            (Some(plan), Some(connections)) => match plan
                .peers
                .as_slice()
                .get(usize::from(site).wrapping_sub(1))
            {
                Some(address) => connections.send_peer(&self.rt, site, address.as_str(), piece),
                None => false,
            },
            _ => false,
        };
        self.ended(sent)
    }

    fn drop_client(&mut self, conn: u64) {
        if let Some(connections) = &mut self.connections {
            connections.drop_client(conn);
        }
    }
}
