//! The text of schedules and of traces: its lines, and what each line says.
#![tactic(auto)]

mod fault;
mod laws;
mod line;
mod numbers;
mod reading;
mod text;
mod trace_line;
mod trace_reading;
mod trace_writing;
mod writing;

pub use fault::LineFault;
pub use laws::{
    read_line_is_written, read_trace_line_is_written, refused_line_has_first_fault,
    refused_trace_line_has_first_fault, worked_lines, worked_trace_lines, written_line_is_read,
    written_trace_line_is_read,
};
pub use line::Line;
pub use reading::read_line;
pub use text::{Lines, NoSeparator, Parts, lines_of, next_line, split_text};
pub use trace_line::TraceLine;
pub use trace_reading::read_trace_line;
pub use trace_writing::write_trace_line;
pub use writing::write_line;

#[cfg(test)]
mod tests;
