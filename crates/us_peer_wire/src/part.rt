//! What messages hold: reading, writing, lengths.
ghost use Rattle.us_base.specs.Shape.{IsShape};
ghost use Rattle.us_fields.specs.DecodeResult.{Tells};
ghost use Rattle.us_peer_wire.specs.Parts.{page_fields_at};

use crate::codes::page_code;
use crate::{LogEntry, Page};
use std::alloc::Global;
use us_base::{Limits, Shape, Vector};
use us_fields::{
    DecodeFault, Field, TID_LEN, found, list_len, put_list, put_writes, take_list, take_writes,
    vector_len,
};
use us_kind::{Items, Memory, Tid};
use us_migrate::{put_tid, put_vector, take_tid, take_vector};
use us_value::{Class, Item, Write};
use us_wire::{put_u8, take_u8};

/// How many operations a transaction has at most.
const OPERATIONS: u16 = Limits::OPERATIONS as u16;

impl Field for LogEntry {
    ghost use Rattle.us_peer_wire.specs.Parts.{entry_encoding, EntryFits, entry_at};
    ghost use Rattle.us_peer_wire.specs.Lengths.{entry_length};

    ghost fits = { EntryFits };

    ghost encoding = { entry_encoding };

    ghost decoder = { entry_at };

    ghost size = { entry_length };

    #[tactic(auto, unfolding(crate::specs::Parts::entry_at))]
    fn take(
        alloc: Global,
        input: &[u8],
        at: usize,
        shape: Shape,
    ) -> Result<(LogEntry, usize), DecodeFault> {
        let (tid, at) = found(take_tid(input, at, shape))?;
        let (snapshot, at) = found(take_vector(input, at, shape))?;
        let (touches, at) = take_list::<(Item, Class)>(alloc, input, at, 0, OPERATIONS, shape)?;
        let (writes, next) = take_writes(alloc, input, at, shape)?;
        let entry = LogEntry {
            tid,
            snapshot,
            touches,
            writes,
        };
        Ok((entry, next))
    }

    fn put(&self, mut out: Vec<u8>, shape: Shape) -> Result<Vec<u8>, Memory> {
        put_tid(&mut out, shape, self.tid)?;
        put_vector(&mut out, shape, &self.snapshot)?;
        let out = put_list(out, self.touches.as_slice(), shape)?;
        put_writes(out, &self.writes, shape)
    }

    fn encoded_len(&self, shape: Shape) -> usize {
        list_len(self.touches.as_slice(), shape)
            .saturating_add(list_len(self.writes.as_slice(), shape))
            .saturating_add(TID_LEN + vector_len(shape))
    }

    fn copied(&self) -> Result<LogEntry, Memory> {
        self.copy()
    }
}

/// The fields of the page with this code.
#[tactic(auto, unfolding(crate::specs::Parts::page_fields_at))]
fn page_fields_in(
    alloc: Global,
    code: u8,
    input: &[u8],
    at: usize,
    shape: Shape,
) -> Result<(Page, usize), DecodeFault>
    requires { IsShape shape }
    ensures { Tells result (page_fields_at shape code input.now at) }
{
    match code {
        page_code::SKIP => Ok((Page::Skip, at)),
        page_code::HOLDS => {
            let ((tid, vector, writes), next) = <(Tid, Vector, Items<Write>)>::take(
                alloc, input, at, shape,
            )?;
            let page = Page::Holds {
                tid,
                vector,
                writes,
            };
            Ok((page, next))
        }
        _ => Err(DecodeFault::Malformed),
    }
}

impl Field for Page {
    ghost use Rattle.us_peer_wire.specs.Parts.{page_encoding, PageFits, page_at};
    ghost use Rattle.us_peer_wire.specs.Lengths.{page_length};

    ghost fits = { PageFits };

    ghost encoding = { page_encoding };

    ghost decoder = { page_at };

    ghost size = { page_length };

    #[tactic(auto, unfolding(crate::specs::Parts::page_at))]
    fn take(
        alloc: Global,
        input: &[u8],
        at: usize,
        shape: Shape,
    ) -> Result<(Page, usize), DecodeFault> {
        let (code, at) = found(take_u8(input, at))?;
        page_fields_in(alloc, code, input, at, shape)
    }

    fn put(&self, mut out: Vec<u8>, shape: Shape) -> Result<Vec<u8>, Memory> {
        match self {
            Page::Skip => {
                put_u8(&mut out, page_code::SKIP)?;
                Ok(out)
            }
            Page::Holds {
                tid,
                vector,
                writes,
            } => {
                put_u8(&mut out, page_code::HOLDS)?;
                put_tid(&mut out, shape, *tid)?;
                put_vector(&mut out, shape, vector)?;
                put_writes(out, writes, shape)
            }
        }
    }

    fn encoded_len(&self, shape: Shape) -> usize {
        match self {
            Page::Skip => 1,
            Page::Holds { writes, .. } => {
                list_len(writes.as_slice(), shape).saturating_add(1 + TID_LEN + vector_len(shape))
            }
        }
    }

    fn copied(&self) -> Result<Page, Memory> {
        self.copy()
    }
}
