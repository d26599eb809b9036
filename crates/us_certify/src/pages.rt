//! The pages that partitions are told.
ghost use Rattle.std.specs.Prelude.{◌≡◌, ◌≤◌, ◌<◌, ℕ, ◌+◌, ◌-◌, ◌^◌, IfOk, length, take, drop};
ghost use Rattle.us_base.specs.Shape.{IsShape};
ghost use Rattle.us_certify.specs.Logs.{is_kept_by, writes_on, page_of, pages_of};

use crate::Decision;
use crate::verdict::vector_in;
use std::alloc::Global;
use us_base::{Limits, Shape, partition_of};
use us_kind::{Items, Memory};
use us_peer_wire::{Page, Verdict};
use us_value::Write;

/// The most pages that are told at once.
const MOST: usize = Limits::SLOTS;

/// Whether the write is on an item of this partition.
fn is_kept_by(shape: Shape, part: u8, write: &Write) -> bool
    requires { IsShape shape }
    ensures { result ≡ is_kept_by shape part write.now }
{
    partition_of(shape, write.item.space, write.item.id.as_slice()) == part
}

/// Copies of the writes on a partition's items, in order.
fn writes_on(
    alloc: Global,
    shape: Shape,
    part: u8,
    writes: &[Write],
) -> Result<Items<Write>, Memory>
    requires { IsShape shape }
    ensures { IfOk result (λ copies. copies ≡ writes_on shape part writes.now) }
{
    let mut copies = Items::new(alloc);
    for write in writes {
        if is_kept_by(shape, part, write) {
            copies.push(write.copy()?)?;
        }
    }
    Ok(copies)
}

/// What the decision in a slot is to a partition.
fn page_of(
    alloc: Global,
    shape: Shape,
    part: u8,
    slot: u64,
    decision: &Decision,
) -> Result<Page, Memory>
    requires { IsShape shape }
    ensures { IfOk result (λ page. page ≡ page_of shape part slot decision.now) }
{
    match decision.verdict {
        Verdict::Commit => Ok(Page::Holds {
            tid: decision.entry.tid,
            vector: vector_in(slot, &decision.entry),
            writes: writes_on(alloc, shape, part, decision.entry.writes.as_slice())?,
        }),
        Verdict::Abort { .. } => Ok(Page::Skip),
        Verdict::Repeat => Ok(Page::Skip),
    }
}

/// The decisions in the slots from `first` on, or the first 8 of these.
fn window(decisions: &[Decision], first: u64) -> &[Decision]
    requires { 1 ≤ first }
    ensures window { result.now ≡ take 8 (drop (first - 1) decisions.now) }
    ensures slots { (place : ℕ) → place < length result.now → first + place < 2 ^ 64 }
{
    let length = decisions.len();
    if first - 1 >= length as u64 {
        return &[];
    }
    let from = (first - 1) as usize;
    let rest = &decisions[from..];
    &rest[..rest.len().min(MOST)]
}

/// The pages of the decisions in the slots from `first` on, or of the first 8 of these.
pub fn pages_from(
    alloc: Global,
    shape: Shape,
    part: u8,
    first: u64,
    decisions: &[Decision],
) -> Result<Vec<Page>, Memory>
    requires shape { IsShape shape }
    requires first { 1 ≤ first }
    ensures { IfOk result (λ pages. pages.items ≡ pages_of shape part first (take 8 (drop (first - 1) decisions.now))) }
{
    let window = window(decisions, first);
    let mut pages = Vec::new(alloc);
    for (place, decision) in window.iter().enumerate() {
        let slot = first + place as u64;
        pages.push(page_of(alloc, shape, part, slot, decision)?)?;
    }
    Ok(pages)
}
