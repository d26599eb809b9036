ghost use Rattle.std.specs.Prelude.{◌≡◌, ◌≤◌, ◌∷◌, [], ◌++◌, OnOk, OnErr, length};
ghost use Rattle.std.specs.Int.{w16, w32, w64, w128, to_be_bytes};
ghost use Rattle.us_wire.specs.Fields.{integer, longest_value, value};

use us_kind::Memory;

/// Writes a byte at the end.
pub fn put_u8(out: &mut Vec<u8>, v: u8) -> Result<(), Memory>
    ensures ok { OnOk result (out.new.items ≡ out.old.items ++ v ∷ []) }
    ensures err { OnErr result (out.new.items ≡ out.old.items) }
{
    out.push(v)?;
    Ok(())
}

/// Writes a number of two bytes at the end, the highest first.
pub fn put_u16(out: &mut Vec<u8>, v: u16) -> Result<(), Memory>
    ensures ok { OnOk result (out.new.items ≡ out.old.items ++ to_be_bytes w16 v) }
    ensures err { OnErr result (out.new.items ≡ out.old.items) }
{
    out.extend_from_slice(&v.to_be_bytes())?;
    Ok(())
}

/// Writes a number of four bytes at the end, the highest first.
pub fn put_u32(out: &mut Vec<u8>, v: u32) -> Result<(), Memory>
    ensures ok { OnOk result (out.new.items ≡ out.old.items ++ to_be_bytes w32 v) }
    ensures err { OnErr result (out.new.items ≡ out.old.items) }
{
    out.extend_from_slice(&v.to_be_bytes())?;
    Ok(())
}

/// Writes a number of eight bytes at the end, the highest first.
pub fn put_u64(out: &mut Vec<u8>, v: u64) -> Result<(), Memory>
    ensures ok { OnOk result (out.new.items ≡ out.old.items ++ to_be_bytes w64 v) }
    ensures err { OnErr result (out.new.items ≡ out.old.items) }
{
    out.extend_from_slice(&v.to_be_bytes())?;
    Ok(())
}

/// Writes a number of eight bytes in two's complement at the end, the highest first.
pub fn put_i64(out: &mut Vec<u8>, v: i64) -> Result<(), Memory>
    ensures ok { OnOk result (out.new.items ≡ out.old.items ++ integer w64 v) }
    ensures err { OnErr result (out.new.items ≡ out.old.items) }
{
    out.extend_from_slice(&v.to_be_bytes())?;
    Ok(())
}

/// Writes a number of sixteen bytes in two's complement at the end, the highest first.
pub fn put_i128(out: &mut Vec<u8>, v: i128) -> Result<(), Memory>
    ensures ok { OnOk result (out.new.items ≡ out.old.items ++ integer w128 v) }
    ensures err { OnErr result (out.new.items ≡ out.old.items) }
{
    out.extend_from_slice(&v.to_be_bytes())?;
    Ok(())
}

/// Writes a value of at most 1,024 bytes at the end, behind its length of two bytes.
pub fn put_value(out: &mut Vec<u8>, v: &[u8]) -> Result<(), Memory>
    requires { length v.now ≤ longest_value }
    ensures ok { OnOk result (out.new.items ≡ out.old.items ++ value v.now) }
    ensures err { OnErr result (out.new.items ≡ out.old.items) }
{
    let before = out.len();
    put_u16(out, v.len() as u16)?;
    if out.extend_from_slice(v).is_err() {
        out.truncate(before);
        return Err(Memory);
    }
    Ok(())
}
