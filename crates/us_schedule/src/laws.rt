ghost use Rattle.us_schedule.specs.Rows.{WorkedLines};
ghost use Rattle.us_schedule.specs.Lines.{WrittenIsRead, ReadIsWritten, RefusedIsFirst};
ghost use Rattle.us_schedule.specs.Trace.{TraceWrittenIsRead, TraceReadIsWritten, TraceRefusedIsFirst};
ghost use Rattle.us_schedule.specs.TraceRows.{WorkedTraceLines};

/// A line that the grammar allows is read as itself from the text that is written of it.
pub fn written_line_is_read()
    ensures { WrittenIsRead }
{}

/// A line is read from no other text than that which is written of it, but for the case of hex digits.
pub fn read_line_is_written()
    ensures { ReadIsWritten }
{}

/// A line is refused for the first of the four faults that holds.
pub fn refused_line_has_first_fault()
    ensures { RefusedIsFirst }
{}

/// The definitions give what was worked by hand.
pub fn worked_lines()
    ensures { WorkedLines }
{}

/// A trace's line that the grammar allows is read as itself from the text that is written of it.
pub fn written_trace_line_is_read()
    ensures { TraceWrittenIsRead }
{}

/// A trace's line is read from no other text than that which is written of it, but for the case of hex digits.
pub fn read_trace_line_is_written()
    ensures { TraceReadIsWritten }
{}

/// A trace's line is refused for the first of the four faults that holds.
pub fn refused_trace_line_has_first_fault()
    ensures { TraceRefusedIsFirst }
{}

/// The definitions give what was worked by hand of a trace.
pub fn worked_trace_lines()
    ensures { WorkedTraceLines }
{}
