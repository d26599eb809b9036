mod faults;
mod fixtures;
mod limits;
mod lines;
mod shapes;
mod texts;
mod traces;
