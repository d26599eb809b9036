//! Tables of vectors, one for each partition or site.
ghost use Rattle.std.specs.Prelude.{◌≡◌, ◌≤◌, ◌<◌, length, replicate, IfOk};
ghost use Rattle.us_base.specs.Vector.{zero};
ghost use Rattle.us_vectors.specs.Tables.{others, joined, meet_all};

use std::alloc::Global;
use us_base::Vector;
use us_kind::Memory;

/// So many vectors whose entries are all 0.
pub fn zeros(alloc: Global, count: u8) -> Result<Vec<Vector>, Memory>
    ensures { IfOk result (λ table. table.items ≡ replicate count zero) }
{
    Ok(vec![in alloc; Vector::zero(); usize::from(count)]?)
}

/// A vector joins the one of this number.
pub fn join_into(table: &mut [Vector], number: u8, vector: &Vector)
    requires first { 1 ≤ number }
    requires last { number ≤ length table.old }
    ensures { table.new ≡ joined table.old number vector.now }
{
    let place = usize::from(number) - 1;
    table[place] = table[place].join(vector);
}

/// The least entries of the vector and of all in the table but the one of this number.
pub fn meet_others(vector: &Vector, table: &[Vector], number: u8) -> Vector
    requires first { 1 ≤ number }
    requires last { number ≤ length table.now }
    ensures { result ≡ meet_all vector.now (others number table.now) }
{
    let place = usize::from(number) - 1;
    let before = meet_all(vector, &table[..place]);
    meet_all(&before, &table[place + 1..])
}

/// The least entries of the vector and of all in the table.
fn meet_all(vector: &Vector, table: &[Vector]) -> Vector
    ensures { result ≡ meet_all vector.now table.now }
{
    let mut least = *vector;
    for other in table {
        least = least.meet(other);
    }
    least
}
