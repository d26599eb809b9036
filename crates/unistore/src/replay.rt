ghost use Rattle.std.specs.Prelude.{◌≡◌, Bool, IfOk, string_bytes};
ghost use Rattle.unistore.specs.Built.{IsBuilt};
ghost use Rattle.unistore.specs.Answers.{Passed, PassedFault, Performs, Refuses, RefusesTooMuch, RefusesWords, Replays, Tells};
ghost use Rattle.unistore.specs.Schedule.{schedule_of};
ghost use Rattle.unistore.specs.Status.{kind_of, input_text, passed_text};
ghost use Rattle.unistore.specs.declared.schedule.Schedule.TheVariants.{Read};

use crate::performing::perform_lines;
use crate::report::report_of_script;
use crate::schedule::{Refusal, Schedule, Script, read_schedule};
use crate::{LimitKind, Reason, Status};
use std::alloc::{AllocError, Global};
use us_base::Limits;
use us_edge::{Failed, ReadAllFault, Sink, Source, read_all, write_all};
use us_kind::Memory;
use us_report::{Report, ReportFault, write_report};
use us_world::{LinesFault, WorldFault};

/// The most bytes of input.
const MOST_TEXT: usize = Limits::TEXT;

/// Reads the whole input, and then writes the report of its lines, or with `short` the last line of that, or the line
/// of its refusal.
pub fn replay<S: Source, K: Sink>(
    alloc: Global,
    short: bool,
    source: &mut S,
    sink: &mut K,
) -> Status
    ensures { Replays short
        (record { left = S.left source.old; faults = S.faults source.old }) (record { left = S.left source.new; faults = S.faults source.new })
        (record { written = K.written sink.old; faults = K.faults sink.old }) (record { written = K.written sink.new; faults = K.faults sink.new })
        result }
{
    match read_all(alloc, source, MOST_TEXT) {
        Ok(text) => perform(alloc, text.as_slice(), short, sink),
        Err(ReadAllFault::Failed) => Status::ReadFault,
        Err(ReadAllFault::TooLong) => refuse_length(sink),
        Err(ReadAllFault::Memory) => Status::Memory,
    }
}

/// Writes the line of a call whose words are no form.
pub fn refuse_words<K: Sink>(sink: &mut K) -> Status
    ensures { RefusesWords
        (record { written = K.written sink.old; faults = K.faults sink.old }) (record { written = K.written sink.new; faults = K.faults sink.new })
        result }
{
    match write_all(sink, b"refused words\n") {
        Ok(()) => Status::Words,
        Err(Failed) => Status::WriteFault,
    }
}

/// Writes the line of an input that is too long.
fn refuse_length<K: Sink>(sink: &mut K) -> Status
    ensures { RefusesTooMuch
        (record { written = K.written sink.old; faults = K.faults sink.old }) (record { written = K.written sink.new; faults = K.faults sink.new })
        result }
{
    match write_all(sink, b"refused limit text line 0\n") {
        Ok(()) => Status::Limit {
            which: LimitKind::Text,
            line: 0,
        },
        Err(Failed) => Status::WriteFault,
    }
}

/// Writes the report of a text, or the line of its refusal.
fn perform<K: Sink>(alloc: Global, text: &[u8], short: bool, sink: &mut K) -> Status
    ensures { Performs short (schedule_of text.now)
        (record { written = K.written sink.old; faults = K.faults sink.old }) (record { written = K.written sink.new; faults = K.faults sink.new })
        result }
{
    match read_schedule(alloc, text) {
        Ok(Schedule::Refused { refusal }) => refuse_input(alloc, refusal, sink),
        Ok(Schedule::Read { script, refused }) => {
            perform_read(alloc, script, refused, short, sink)
        }
        Err(Memory) => Status::Memory,
    }
}

/// Performs the lines, and writes the report, or the line of a limit that they pass, or that of the refusal behind them.
fn perform_read<K: Sink>(
    alloc: Global,
    script: Script,
    refused: Option<Refusal>,
    short: bool,
    sink: &mut K,
) -> Status
    requires { IsBuilt script }
    ensures { Performs short (Read script refused)
        (record { written = K.written sink.old; faults = K.faults sink.old }) (record { written = K.written sink.new; faults = K.faults sink.new })
        result }
{
    match refused {
        Some(refusal) => refuse_behind(alloc, script, refusal, sink),
        None => report_lines(alloc, script, short, sink),
    }
}

/// Performs the lines, and then writes the line of the refusal behind them.
fn refuse_behind<K: Sink>(alloc: Global, script: Script, refusal: Refusal, sink: &mut K) -> Status
    requires { IsBuilt script }
    ensures { (short : Bool) → Performs short (Read script (Some refusal))
        (record { written = K.written sink.old; faults = K.faults sink.old }) (record { written = K.written sink.new; faults = K.faults sink.new })
        result }
{
    let (settings, lines) = script.into_parts();
    match perform_lines(alloc, &settings, lines.as_slice()) {
        Ok(()) => refuse_input(alloc, refusal, sink),
        Err(fault) => refuse_fault(alloc, fault, sink),
    }
}

/// Performs the lines and writes the report.
fn report_lines<K: Sink>(alloc: Global, script: Script, short: bool, sink: &mut K) -> Status
    requires { IsBuilt script }
    ensures { Performs short (Read script None)
        (record { written = K.written sink.old; faults = K.faults sink.old }) (record { written = K.written sink.new; faults = K.faults sink.new })
        result }
{
    match report_of_script(alloc, script) {
        Ok(report) => tell(alloc, &report, short, sink),
        Err(fault) => refuse_fault(alloc, fault, sink),
    }
}

/// Writes a report, or with `short` its last line.
fn tell<K: Sink>(alloc: Global, report: &Report, short: bool, sink: &mut K) -> Status
    ensures { Tells short report.now
        (record { written = K.written sink.old; faults = K.faults sink.old }) (record { written = K.written sink.new; faults = K.faults sink.new })
        result }
{
    match write_report(alloc, report, short, sink) {
        Ok(()) => Status::Done,
        Err(ReportFault::Failed) => Status::WriteFault,
        Err(ReportFault::Memory) => Status::Memory,
    }
}

/// Writes the line of a refused input.
fn refuse_input<K: Sink>(alloc: Global, refusal: Refusal, sink: &mut K) -> Status
    ensures { Refuses refusal
        (record { written = K.written sink.old; faults = K.faults sink.old }) (record { written = K.written sink.new; faults = K.faults sink.new })
        result }
{
    let Ok(text) = input_text(alloc, refusal) else {
        return Status::Memory;
    };
    match write_all(sink, text.as_bytes()) {
        Ok(()) => Status::Input {
            line: refusal.line,
            reason: refusal.reason,
        },
        Err(Failed) => Status::WriteFault,
    }
}

/// The line of a refused input.
fn input_text(alloc: Global, refusal: Refusal) -> Result<String, AllocError>
    ensures { IfOk result (λ text. string_bytes text ≡ input_text refusal.line refusal.reason) }
{
    let mut text = String::new(alloc);
    if let Reason::Config { key, fault } = refusal.reason {
        writeln!(text, "refused config {} {}", key.name(), fault.name())?;
        return Ok(text);
    }
    writeln!(
        text,
        "refused line {} {}",
        refusal.line,
        refusal.reason.word()
    )?;
    Ok(text)
}

/// Writes the line of a limit that lines pass.
fn refuse_fault<K: Sink>(alloc: Global, fault: LinesFault, sink: &mut K) -> Status
    ensures { PassedFault fault
        (record { written = K.written sink.old; faults = K.faults sink.old }) (record { written = K.written sink.new; faults = K.faults sink.new })
        result }
{
    let LinesFault::Limit { line, which } = fault else {
        return Status::Memory;
    };
    match kind_of(which) {
        Some(which) => refuse_limit(alloc, which, line, sink),
        None => Status::Memory,
    }
}

/// The limit that a run passed, as a status has it.
fn kind_of(which: WorldFault) -> Option<LimitKind>
    ensures { result ≡ kind_of which }
{
    match which {
        WorldFault::Events => Some(LimitKind::Events),
        WorldFault::Sessions => Some(LimitKind::Sessions),
        WorldFault::Transactions => Some(LimitKind::Transactions),
        WorldFault::Memory => None,
    }
}

/// Writes the line of a passed limit.
fn refuse_limit<K: Sink>(alloc: Global, which: LimitKind, line: u64, sink: &mut K) -> Status
    ensures { Passed which line
        (record { written = K.written sink.old; faults = K.faults sink.old }) (record { written = K.written sink.new; faults = K.faults sink.new })
        result }
{
    let Ok(text) = limit_text(alloc, which, line) else {
        return Status::Memory;
    };
    match write_all(sink, text.as_bytes()) {
        Ok(()) => Status::Limit { which, line },
        Err(Failed) => Status::WriteFault,
    }
}

/// The line of a passed limit.
fn limit_text(alloc: Global, which: LimitKind, line: u64) -> Result<String, AllocError>
    ensures { IfOk result (λ text. string_bytes text ≡ passed_text which line) }
{
    let mut text = String::new(alloc);
    writeln!(text, "refused limit {} line {line}", which.word())?;
    Ok(text)
}
