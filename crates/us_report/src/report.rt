ghost use Rattle.std.specs.Prelude.{◌≡◌};
ghost use Rattle.us_report.specs.declared.report.ReportFault.TheVariants as reporting;

use std::alloc::AllocError;
use std::error::Error;
use std::fmt;
use us_edge::Failed;
use us_exec::{Execution, RefusedRequest, WaitingRequest};
use us_kind::Items;

/// What a run came to: its execution, the refused requests in order, and the sessions that wait, ascending.
#[derive(Drop)]
pub struct Report {
    pub execution: Execution,
    pub refused: Items<RefusedRequest>,
    pub waiting: Items<WaitingRequest>,
}

/// Why a report was not written whole.
#[derive(Clone, Copy, Debug, PartialEq, Eq, Hash)]
pub enum ReportFault {
    /// A write failed, and the sink counted it.
    Failed,
    /// Want of memory.
    Memory,
}

impl fmt::Display for ReportFault {
    ghost use Rattle.std.specs.Prelude.{Some};
    ghost use Rattle.us_report.specs.Faults.{fault_text};

    ghost output = { λ fault. Some (fault_text fault) };

    fn fmt<W: fmt::Write>(&self, f: &mut fmt::Formatter<W>) -> fmt::Result {
        f.write_str(match self {
            ReportFault::Failed => "the report was not written",
            ReportFault::Memory => "out of memory",
        })
    }
}

impl Error for ReportFault {}

impl From<AllocError> for ReportFault {
    ghost from_gives = { λ _ fault. fault ≡ reporting.Memory };

    fn from(_error: AllocError) -> ReportFault {
        ReportFault::Memory
    }
}

impl From<Failed> for ReportFault {
    ghost from_gives = { λ _ fault. fault ≡ reporting.Failed };

    fn from(_failed: Failed) -> ReportFault {
        ReportFault::Failed
    }
}
