//! Frames of a stream, and the fields of frames.
#![tactic(auto)]

mod frames;
pub mod laws;
mod read_fields;
mod whole;
mod write_fields;

pub use frames::{FrameReader, Next};
pub use read_fields::{
    take_i64, take_i128, take_number, take_u8, take_u8_between, take_u16, take_u32, take_u64,
    take_value,
};
pub use whole::open_frame;
pub use write_fields::{put_i64, put_i128, put_u8, put_u16, put_u32, put_u64, put_value};

/// How many bytes a value has at most.
pub const LONGEST_VALUE: usize = 1024;

/// The greatest of the numbers that count something: 2^62.
pub const LARGEST_NUMBER: u64 = 1 << 62;

#[cfg(test)]
mod tests;
