//! A world, as its user sees it.
ghost use Rattle.std.specs.Prelude.{◌≡◌, ◌++◌, ◌∷◌, [], false, IfOk, IfErr, OnOk};
ghost use Rattle.us_base.specs.Shape.{IsShape};
ghost use Rattle.us_exec.specs.Consistency.{IsSound};
ghost use Rattle.us_model.specs.Worlds.{waits_of};
ghost use Rattle.us_model.specs.Executions.{execution_of, refusals_of};
ghost use Rattle.us_order.specs.Premise.{HasOnePartition};
ghost use Rattle.us_world.specs.Lines.{IsBuilt, IsOpening, HasPerformed, IsFaultOf, OfWorld};

use crate::WorldFault;
use crate::run::Run;
use std::alloc::Global;
use std::marker::Model;
use us_exec::{Execution, RefusedRequest, WaitingRequest};
use us_kind::{Items, Memory};
use us_model::Settings;
use us_order::{
    every_run_is_por, executions_are_direct, executions_are_well_formed, histories_ascend,
};
use us_schedule::Line;

/// A world: the run over the events of the lines that were performed, from the opening world of a store on.
#[derive(Drop)]
pub struct World {
    settings: Settings,
    lines: Vec<Line>,
    run: Run,
    stopped: bool,
}

impl Model for World {
    ghost use Rattle.us_world.specs.Lines.{Performed, StandsUnless};

    ghost Value = { Performed };

    ghost view = { λ a. record { settings = a.settings; lines = a.lines.items; stopped = a.stopped; kept = a.run } };

    ghost invariant = { λ a. StandsUnless a.stopped a.settings a.lines.items a.run };
}

/// A copy of the line at the end.
fn add_line(lines: &mut Vec<Line>, line: &Line) -> Result<(), Memory>
    ensures { OnOk result (lines.new.items ≡ lines.old.items ++ line.now ∷ []) }
{
    lines.push(line.copy()?)?;
    Ok(())
}

impl World {
    /// The opening world of a store with these settings, in which nothing has happened.
    pub fn new(alloc: Global, settings: &Settings) -> Result<World, Memory>
        requires { IsShape settings.now.shape }
        ensures { IfOk result (λ world. IsOpening settings.now world) }
    {
        Ok(World {
            settings: settings.copy()?,
            lines: Vec::new(alloc),
            run: Run::new(alloc, settings)?,
            stopped: false,
        })
    }

    /// What the line stands for happens, and the line stands at the end of those performed. A fault that is a limit comes at
    /// the first event that takes a count past its number: events first, then sessions, then transactions. After a fault the
    /// world is only dropped: it is stopped, and all that it answers is want of memory.
    pub fn perform(&mut self, alloc: Global, line: &Line) -> Result<(), WorldFault>
        requires { IsBuilt line.now }
        ensures performed { OnOk result (HasPerformed line.now self.old self.new) }
        ensures stopped { IfErr result (λ fault. IsFaultOf self.old.settings self.old.lines line.now fault) }
    {
        if self.stopped {
            return Err(WorldFault::Memory);
        }
        self.stopped = true;
        add_line(&mut self.lines, line)?;
        self.run.perform(alloc, line)?;
        self.stopped = false;
        Ok(())
    }

    /// The lines that were performed, in order.
    pub fn lines(&self) -> &[Line]
        ensures { result.now ≡ self.now.lines }
    {
        self.lines.as_slice()
    }

    /// The execution of the world. It is well formed, and consistent by the declared conflicts.
    pub fn execution(&self, alloc: Global) -> Result<Execution, Memory>
        requires { HasOnePartition self.now.settings }
        ensures is { IfOk result (λ execution. OfWorld self.now.settings self.now.lines (λ w. execution ≡ execution_of w.notes)) }
        ensures sound { IfOk result (λ execution. IsSound self.now.settings.conflicts execution) }
    {
        executions_are_direct();
        executions_are_well_formed();
        every_run_is_por();
        histories_ascend();
        if self.stopped {
            return Err(Memory);
        }
        self.run.history().execution(alloc)
    }

    /// The refused requests, in order.
    pub fn refusals(&self) -> &[RefusedRequest]
        ensures { self.now.stopped ≡ false → OfWorld self.now.settings self.now.lines (λ w. result.now ≡ refusals_of w.notes) }
    {
        self.run.history().refused()
    }

    /// The sessions that wait, in order, each with its first unanswered request.
    pub fn waiting(&self, alloc: Global) -> Result<Items<WaitingRequest>, Memory>
        ensures { IfOk result (λ waits. OfWorld self.now.settings self.now.lines (λ w. waits ≡ waits_of w.sites)) }
    {
        if self.stopped {
            return Err(Memory);
        }
        self.run.waiting(alloc)
    }
}
