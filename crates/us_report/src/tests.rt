mod all_lines;
mod faults;
mod fixtures;
mod shelf;
mod worked_reports;
