//! Lines in turn, and what they come to.
ghost use Rattle.std.specs.Prelude.{◌≡◌, false, IfOk, IfErr, OnOk};
ghost use Rattle.us_base.specs.Shape.{IsShape};
ghost use Rattle.us_exec.specs.Consistency.{IsSound};
ghost use Rattle.us_order.specs.Premise.{HasOnePartition};
ghost use Rattle.us_world.specs.Lines.{AllBuilt, HaveWorld, IsLimitOf, OfWorld, fault_at};
ghost use Rattle.unistore.specs.Performing.{ArePerformed, IsReportOf, report_of};

use std::alloc::Global;
use us_exec::RefusedRequest;
use us_kind::{Items, Memory};
use us_model::Settings;
use us_report::Report;
use us_world::{LinesFault, Numbered, World, WorldFault, outcomes_are_one};

/// The fault of a line.
fn fault_at(line: u64, which: WorldFault) -> LinesFault
    ensures { result ≡ fault_at line which }
{
    match which {
        WorldFault::Memory => LinesFault::Memory,
        _ => LinesFault::Limit { line, which },
    }
}

/// The world of the lines.
fn reached(alloc: Global, settings: &Settings, lines: &[Numbered]) -> Result<World, LinesFault>
    requires shape { IsShape settings.now.shape }
    requires built { AllBuilt lines.now }
    ensures reached { IfOk result (λ world. ArePerformed settings.now lines.now world) }
    ensures limit { IfErr result (λ fault. IsLimitOf settings.now lines.now fault) }
{
    let mut world = World::new(alloc, settings)?;
    for line in lines {
        if let Err(which) = world.perform(alloc, &line.line) {
            return Err(fault_at(line.number, which));
        }
    }
    Ok(world)
}

/// Whether the lines have a world, from the opening one of a store with these settings on, within the limits.
///
/// A limit is that of the first event that takes a count past its number, with the number of its line.
pub fn perform_lines(
    alloc: Global,
    settings: &Settings,
    lines: &[Numbered],
) -> Result<(), LinesFault>
    requires shape { IsShape settings.now.shape }
    requires built { AllBuilt lines.now }
    ensures reached { OnOk result (HaveWorld settings.now lines.now) }
    ensures limit { IfErr result (λ fault. IsLimitOf settings.now lines.now fault) }
{
    reached(alloc, settings, lines)?;
    Ok(())
}

/// Copies of the requests.
fn copies(alloc: Global, requests: &[RefusedRequest]) -> Result<Items<RefusedRequest>, Memory>
    ensures { IfOk result (λ copies. copies ≡ requests.now) }
{
    let mut copies = Items::new(alloc);
    for request in requests {
        copies.push(RefusedRequest {
            session: request.session,
            at: request.at,
            number: request.number,
        })?;
    }
    Ok(copies)
}

/// The report of a world. Its execution is well formed, and consistent by the declared conflicts.
fn report_of(alloc: Global, world: &World) -> Result<Report, Memory>
    requires one { HasOnePartition world.now.settings }
    requires runs { world.now.stopped ≡ false }
    ensures is { IfOk result (λ report. OfWorld world.now.settings world.now.lines (λ w. report ≡ report_of w)) }
    ensures sound { IfOk result (λ report. IsSound world.now.settings.conflicts report.execution) }
{
    outcomes_are_one();
    Ok(Report {
        execution: world.execution(alloc)?,
        refused: copies(alloc, world.refusals())?,
        waiting: world.waiting(alloc)?,
    })
}

/// The report of the world of the lines: the run over their events, from the opening world of a store with these settings on.
/// Its execution is well formed, and consistent by the declared conflicts.
///
/// A limit is that of the first event that takes a count past its number, with the number of its line.
#[tactic(auto, using(crate::proofs::LinesInTurn::one_shape))]
pub fn report_of_lines(
    alloc: Global,
    settings: &Settings,
    lines: &[Numbered],
) -> Result<Report, LinesFault>
    requires one { HasOnePartition settings.now }
    requires built { AllBuilt lines.now }
    ensures report { IfOk result (λ report. IsReportOf settings.now lines.now report) }
    ensures sound { IfOk result (λ report. IsSound settings.now.conflicts report.execution) }
    ensures limit { IfErr result (λ fault. IsLimitOf settings.now lines.now fault) }
{
    let world = reached(alloc, settings, lines)?;
    Ok(report_of(alloc, &world)?)
}
