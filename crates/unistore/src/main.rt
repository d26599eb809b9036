//! The replicated store as a program: `unistore replay` reads a schedule and writes the report of its run.
#![tactic(auto)]

mod arguments;
mod call;
pub mod edge;
mod form;
mod infallible;
mod performing;
mod replay;
mod report;
mod schedule;
mod status;

use arguments::arguments_of;
pub use call::unistore;
use edge::{ListClock, SureLinks};
pub use infallible::replay_infallible;
pub use schedule::{Configured, Refusal, Schedule, Script, read_schedule};
pub use status::{LimitKind, Reason, Status};
use std::process::ExitCode;
use us_real::{StdinSource, StdoutSink};

fn main(rt: HostRuntime) -> ExitCode {
    let alloc = rt.alloc();
    let status = match arguments_of(&rt) {
        Ok(words) => unistore(
            alloc,
            words.as_slice(),
            &mut StdinSource::new(rt.stdin()),
            &mut StdoutSink::new(rt.stdout()),
            &mut SureLinks::new(Vec::new(alloc)),
            &mut ListClock::new(Vec::new(alloc)),
        ),
        Err(us_kind::Memory) => Status::Memory,
    };
    ExitCode::from(status.number())
}

#[cfg(test)]
mod tests;
