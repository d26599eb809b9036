ghost use Rattle.std.specs.Prelude.{◌≡◌, ◌≤◌, if◌then◌else◌, OnOk, OnErr};
ghost use Rattle.std.specs.List.{flat_map};
ghost use Rattle.us_edge.specs.Faults.{Rose};
ghost use Rattle.us_edge.specs.Streams.{Appends, AppendsPrefix};
ghost use Rattle.us_report.specs.Text.{lines_text, report_text, short_text};

use crate::lines::{Lines, Summary};
use crate::{Report, ReportFault};
use std::alloc::Global;
use us_edge::{Sink, write_all};

/// Writes the lines of one, which are made in the text.
fn write_one<T: Lines, K: Sink>(
    item: &T,
    text: &mut String,
    sink: &mut K,
) -> Result<(), ReportFault>
    ensures ok { OnOk result (Appends (K.written sink.old) (K.written sink.new) (T.text item.now)) }
    ensures err { OnErr result (AppendsPrefix (K.written sink.old) (K.written sink.new) (T.text item.now)) }
    ensures cause { result ≡ Err ReportFault.Failed → Rose (K.faults sink.old) (K.faults sink.new) }
    ensures counts { K.faults sink.old ≤ K.faults sink.new }
{
    text.clear();
    item.push(text)?;
    write_all(sink, text.as_bytes())?;
    Ok(())
}

/// Writes the lines of each.
fn write_each<T: Lines, K: Sink>(
    items: &[T],
    text: &mut String,
    sink: &mut K,
) -> Result<(), ReportFault>
    ensures ok { OnOk result (Appends (K.written sink.old) (K.written sink.new) (flat_map T.text items.now)) }
    ensures err { OnErr result (AppendsPrefix (K.written sink.old) (K.written sink.new) (flat_map T.text items.now)) }
    ensures cause { result ≡ Err ReportFault.Failed → Rose (K.faults sink.old) (K.faults sink.new) }
    ensures counts { K.faults sink.old ≤ K.faults sink.new }
{
    for item in items {
        write_one(item, text, sink)?;
    }
    Ok(())
}

/// Writes all lines of a report but the last.
fn write_lines<K: Sink>(report: &Report, text: &mut String, sink: &mut K) -> Result<(), ReportFault>
    ensures ok { OnOk result (Appends (K.written sink.old) (K.written sink.new) (lines_text report.now)) }
    ensures err { OnErr result (AppendsPrefix (K.written sink.old) (K.written sink.new) (lines_text report.now)) }
    ensures cause { result ≡ Err ReportFault.Failed → Rose (K.faults sink.old) (K.faults sink.new) }
    ensures counts { K.faults sink.old ≤ K.faults sink.new }
{
    let execution = &report.execution;
    write_each(execution.entries.as_slice(), text, sink)?;
    write_each(execution.loose.as_slice(), text, sink)?;
    write_each(execution.links.as_slice(), text, sink)?;
    write_each(report.refused.as_slice(), text, sink)?;
    write_each(report.waiting.as_slice(), text, sink)
}

/// Writes the text of a report, or its last line alone, in time that grows with what it writes.
///
/// After an error a prefix of the text was written.
pub fn write_report<K: Sink>(
    alloc: Global,
    report: &Report,
    short: bool,
    sink: &mut K,
) -> Result<(), ReportFault>
    ensures ok { OnOk result (Appends (K.written sink.old) (K.written sink.new)
        (if short then short_text report.now else report_text report.now)) }
    ensures err { OnErr result (AppendsPrefix (K.written sink.old) (K.written sink.new)
        (if short then short_text report.now else report_text report.now)) }
    ensures cause { result ≡ Err ReportFault.Failed → Rose (K.faults sink.old) (K.faults sink.new) }
    ensures counts { K.faults sink.old ≤ K.faults sink.new }
{
    let mut text = String::new(alloc);
    if !short {
        write_lines(report, &mut text, sink)?;
    }
    write_one(&Summary(report), &mut text, sink)
}
