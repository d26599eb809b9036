use super::*;
use std::test::Fail;
use us_base::{Shape, Vector};

/// Three sites with two partitions.
const THREE: Shape = Shape { f: 1, parts: 2 };

fn vector(strong: u64, first: u64, second: u64, third: u64) -> Vector {
    Vector::zero()
        .with_entry(0, strong)
        .with_entry(1, first)
        .with_entry(2, second)
        .with_entry(3, third)
}

#[test]
fn what_all_partitions_know_is_stable(rt: HostRuntime) -> Result<(), Fail> {
    let mut matrices = Matrices::new(rt.alloc(), THREE, 1, 2)?;
    matrices.take_local(1, &vector(4, 7, 5, 0), &vector(1, 2, 3, 0));
    assert_eq!(rt; matrices.stable(&vector(9, 6, 9, 9)), vector(4, 6, 5, 0));
    assert_eq!(rt; matrices.floor(&vector(2, 2, 2, 2)), vector(1, 2, 2, 0));
    Ok(())
}

#[test]
fn what_two_of_three_sites_have_is_uniform(rt: HostRuntime) -> Result<(), Fail> {
    let mut matrices = Matrices::new(rt.alloc(), THREE, 1, 1)?;
    matrices.take_local(2, &vector(9, 9, 9, 9), &vector(9, 9, 9, 9));
    matrices.take_stable(2, &vector(3, 1, 8, 2));
    matrices.take_stable(3, &vector(5, 4, 0, 9));
    let known = vector(4, 6, 7, 3);
    assert_eq!(rt; matrices.uniform(&known), vector(4, 4, 7, 3));
    assert_eq!(rt; matrices.base(&known), vector(4, 6, 7, 3));
    Ok(())
}

#[test]
fn what_no_site_is_behind_of_is_known_by_all(rt: HostRuntime) -> Result<(), Fail> {
    let mut matrices = Matrices::new(rt.alloc(), THREE, 2, 1)?;
    matrices.take_global(1, &vector(3, 2, 1, 0));
    assert_eq!(rt; matrices.all_know(&vector(1, 1, 1, 1)), Vector::zero());
    matrices.take_global(3, &vector(2, 2, 2, 2));
    matrices.take_global(1, &vector(0, 0, 0, 5));
    assert_eq!(rt; matrices.all_know(&vector(9, 1, 9, 9)), vector(2, 1, 1, 2));
    Ok(())
}
