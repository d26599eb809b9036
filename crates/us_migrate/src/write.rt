ghost use Rattle.std.specs.Prelude.{◌≡◌, ◌≤◌, ◌++◌, OnOk, OnErr, length, take};
ghost use Rattle.us_base.specs.Shape.{IsShape};
ghost use Rattle.us_migrate.specs.Encodings.{tid_encoding, vector_encoding, token_encoding};
ghost use Rattle.us_migrate.specs.Encodings.{TidFits, VectorFits, TokenFits};

use crate::Token;
use us_base::{Shape, Vector};
use us_kind::{Memory, Tid};
use us_wire::{put_u8, put_u64};

/// Takes back what was written where that wasn't all, and answers the same.
fn undone(out: &mut Vec<u8>, before: usize, written: Result<(), Memory>) -> Result<(), Memory>
    ensures same { result ≡ written }
    ensures ok { OnOk result (out.new.items ≡ out.old.items) }
    ensures err { OnErr result (out.new.items ≡ take before out.old.items) }
{
    if written.is_err() {
        out.truncate(before);
    }
    written
}

fn put_tid_fields(out: &mut Vec<u8>, tid: Tid) -> Result<(), Memory>
    ensures ok { OnOk result (out.new.items ≡ out.old.items ++ tid_encoding tid) }
    ensures err { OnErr result (take (length out.old.items) out.new.items ≡ out.old.items) }
{
    put_u8(out, tid.site)?;
    put_u8(out, tid.coord)?;
    put_u64(out, tid.seq)
}

/// Writes a transaction at the end.
pub fn put_tid(out: &mut Vec<u8>, shape: Shape, tid: Tid) -> Result<(), Memory>
    requires shape { IsShape shape }
    requires fits { TidFits shape tid }
    ensures ok { OnOk result (out.new.items ≡ out.old.items ++ tid_encoding tid) }
    ensures err { OnErr result (out.new.items ≡ out.old.items) }
{
    let before = out.len();
    let written = put_tid_fields(out, tid);
    undone(out, before, written)
}

fn put_entries(out: &mut Vec<u8>, shape: Shape, vector: &Vector) -> Result<(), Memory>
    requires shape { IsShape shape }
    requires ten { length vector.now ≡ 10 }
    ensures ok { OnOk result (out.new.items ≡ out.old.items ++ vector_encoding shape vector.now) }
    ensures err { OnErr result (take (length out.old.items) out.new.items ≡ out.old.items) }
{
    for i in 0..shape.sites() + 1 {
        put_u64(out, vector.get(i))?;
    }
    Ok(())
}

/// Writes the entries of a vector that a store of this shape has at the end.
pub fn put_vector(out: &mut Vec<u8>, shape: Shape, vector: &Vector) -> Result<(), Memory>
    requires shape { IsShape shape }
    requires fits { VectorFits shape vector.now }
    ensures ok { OnOk result (out.new.items ≡ out.old.items ++ vector_encoding shape vector.now) }
    ensures err { OnErr result (out.new.items ≡ out.old.items) }
{
    let before = out.len();
    let written = put_entries(out, shape, vector);
    undone(out, before, written)
}

fn put_token_fields(out: &mut Vec<u8>, shape: Shape, token: &Token) -> Result<(), Memory>
    requires shape { IsShape shape }
    requires ten { length token.now.vector ≡ 10 }
    ensures ok { OnOk result (out.new.items ≡ out.old.items ++ token_encoding shape token.now) }
    ensures err { OnErr result (take (length out.old.items) out.new.items ≡ out.old.items) }
{
    put_u8(out, token.site)?;
    put_u8(out, token.coord)?;
    put_u64(out, token.session)?;
    put_u64(out, token.count)?;
    put_entries(out, shape, &token.vector)
}

/// Writes a token at the end.
pub fn write_token(out: &mut Vec<u8>, shape: Shape, token: &Token) -> Result<(), Memory>
    requires shape { IsShape shape }
    requires fits { TokenFits shape token.now }
    ensures ok { OnOk result (out.new.items ≡ out.old.items ++ token_encoding shape token.now) }
    ensures err { OnErr result (out.new.items ≡ out.old.items) }
{
    let before = out.len();
    let written = put_token_fields(out, shape, token);
    undone(out, before, written)
}
