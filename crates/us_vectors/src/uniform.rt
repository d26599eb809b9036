//! What all sites of some group have.
ghost use Rattle.std.specs.Prelude.{◌≡◌, ◌≤◌, ◌<◌, ◌+◌, ◌++◌, ◌&&◌, nat_lt, nat_le, length, map};
ghost use Rattle.us_base.specs.Vector.{entry};
ghost use Rattle.us_vectors.specs.Tables.{others};
ghost use Rattle.us_vectors.specs.Groups.{uniform_number};
ghost use Rattle.us_vectors.specs.Counts.{reaching, better, most_reached, column};

use us_base::Vector;

/// The greatest, over groups of `f` of the other sites with the own one, of the least entry `i` in the group, where the own
/// one's is `own`: the greatest that is at most `own` and that `f` of the others reach.
pub fn uniform_number(f: u8, own: u64, rows: &[Vector], site: u8, i: u8) -> u64
    requires first { 1 ≤ site }
    requires last { site ≤ length rows.now }
    requires few { length rows.now ≤ 9 }
    requires entry { i < 10 }
    ensures { result ≡ uniform_number f own (column i (others site rows.now)) }
{
    if f == 0 {
        return own;
    }
    let place = usize::from(site) - 1;
    own.min(most_reached(f, &rows[..place], &rows[place + 1..], i))
}

/// The greatest entry `i` of the rows in both parts that `f` of them reach, or 0.
fn most_reached(f: u8, before: &[Vector], after: &[Vector], i: u8) -> u64
    requires few { length before.now + length after.now ≤ 9 }
    requires entry { i < 10 }
    ensures { result ≡ most_reached f (column i before.now ++ column i after.now) 0 (column i before.now ++ column i after.now) }
{
    let best = most_reached_of(f, before, after, i, before, 0);
    most_reached_of(f, before, after, i, after, best)
}

/// The greater of `best` and of the entries of `rows` that `f` of all reach.
fn most_reached_of(
    f: u8,
    before: &[Vector],
    after: &[Vector],
    i: u8,
    rows: &[Vector],
    best: u64,
) -> u64
    requires few { length before.now + length after.now ≤ 9 }
    requires entry { i < 10 }
    ensures { result ≡ most_reached f (column i before.now ++ column i after.now) best (column i rows.now) }
{
    let mut most = best;
    for row in rows {
        let n = row.get(i);
        if is_better(f, before, after, i, most, n) {
            most = n;
        }
    }
    most
}

/// Whether the number is greater than the best so far, and `f` of all reach it.
#[tactic(auto, using(crate::proofs::Sums::reaching_append))]
fn is_better(f: u8, before: &[Vector], after: &[Vector], i: u8, best: u64, n: u64) -> bool
    requires few { length before.now + length after.now ≤ 9 }
    requires entry { i < 10 }
    ensures { result ≡ (nat_lt best n && nat_le f (reaching n (column i before.now ++ column i after.now))) }
{
    n > best && usize::from(f) <= reaching(before, i, n) + reaching(after, i, n)
}

/// How many of the rows have an entry `i` of at least `n`.
fn reaching(rows: &[Vector], i: u8, n: u64) -> usize
    requires { i < 10 }
    ensures count { result ≡ reaching n (column i rows.now) }
    ensures few { result ≤ length rows.now }
{
    let mut count = 0;
    for row in rows {
        if row.get(i) >= n {
            count += 1;
        }
    }
    count
}
