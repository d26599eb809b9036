//! The text of a report: what a run came to, line by line.
#![tactic(auto)]

mod display;
mod lines;
mod report;
mod rows;
mod writing;

pub use report::{Report, ReportFault};
pub use rows::worked_reports;
pub use writing::write_report;

#[cfg(test)]
mod tests;
