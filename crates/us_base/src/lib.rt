//! Shapes, vectors and limits.
#![tactic(auto)]

pub mod laws;
mod limits;
mod place;
mod shape;
mod vector;

pub use limits::Limits;
pub use place::partition_of;
pub use shape::Shape;
pub use vector::Vector;
