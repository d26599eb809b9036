ghost use Rattle.std.specs.Prelude.{IfOk, IfErr};
ghost use Rattle.unistore.specs.Built.{IsBuilt};
ghost use Rattle.unistore.specs.Report.{IsReportOf, IsLimitOf};

use crate::performing::report_of_lines;
use crate::schedule::Script;
use std::alloc::Global;
use us_report::Report;
use us_world::LinesFault;

/// The report of the world of the lines, or the limit that they pass.
pub fn report_of_script(alloc: Global, script: Script) -> Result<Report, LinesFault>
    requires { IsBuilt script }
    ensures report { IfOk result (λ report. IsReportOf script report) }
    ensures limit { IfErr result (λ fault. IsLimitOf script fault) }
{
    let (settings, lines) = script.into_parts();
    report_of_lines(alloc, &settings, lines.as_slice())
}
