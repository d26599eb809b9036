//! Which partitions keep what a transaction writes.
ghost use Rattle.std.specs.Prelude.{◌≡◌, IfOk};
ghost use Rattle.us_base.specs.Shape.{IsShape};
ghost use Rattle.us_model.specs.Sessions.{home, is_kept_by, writes_on, is_written, partitions_written};

use std::alloc::Global;
use us_base::{Shape, partition_of};
use us_kind::{Items, Memory};
use us_value::{Item, Write};

/// The partition that keeps an item.
pub fn home(shape: Shape, item: &Item) -> u8
    requires { IsShape shape }
    ensures { result ≡ home shape item.now }
{
    partition_of(shape, item.space, item.id.as_slice())
}

/// Whether the write is on an item of this partition.
fn is_kept_by(shape: Shape, part: u8, write: &Write) -> bool
    requires { IsShape shape }
    ensures { result ≡ is_kept_by shape part write.now }
{
    home(shape, &write.item) == part
}

/// Copies of the writes on a partition's items, in order.
pub fn writes_on(
    alloc: Global,
    shape: Shape,
    part: u8,
    writes: &[Write],
) -> Result<Items<Write>, Memory>
    requires { IsShape shape }
    ensures { IfOk result (λ copies. copies ≡ writes_on shape part writes.now) }
{
    let mut copies = Items::new(alloc);
    for write in writes {
        if is_kept_by(shape, part, write) {
            copies.push(write.copy()?)?;
        }
    }
    Ok(copies)
}

/// Whether some write is on an item of this partition.
fn is_written(shape: Shape, writes: &[Write], part: u8) -> bool
    requires { IsShape shape }
    ensures { result ≡ is_written shape writes.now part }
{
    for write in writes {
        if is_kept_by(shape, part, write) {
            return true;
        }
    }
    false
}

/// The partitions that keep what was written, ascending.
pub fn partitions_written(
    alloc: Global,
    shape: Shape,
    writes: &[Write],
) -> Result<Items<u8>, Memory>
    requires { IsShape shape }
    ensures { IfOk result (λ parts. parts ≡ partitions_written shape writes.now) }
{
    let mut parts = Items::new(alloc);
    for before in 0..shape.parts {
        let part = before + 1;
        if is_written(shape, writes, part) {
            parts.push(part)?;
        }
    }
    Ok(parts)
}
