ghost use Rattle.std.specs.Prelude.{◌≡◌, ◌≤◌};
ghost use Rattle.us_base.specs.Place.{place_of};

use crate::Shape;

/// The partition, from 1, that keeps the item with this space and id.
pub fn partition_of(shape: Shape, space: u8, id: &[u8]) -> u8
    requires some { 1 ≤ shape.parts }
    requires few { shape.parts ≤ 16 }
    ensures { result ≡ place_of shape.parts space id.now }
{
    let mut sum = u128::from(space);
    for byte in id {
        sum += u128::from(*byte);
    }
    1 + (sum % u128::from(shape.parts)) as u8
}

#[cfg(test)]
mod tests {
    use super::*;

    #[test]
    fn items_have_a_partition(rt: HostRuntime) {
        // 97 + 1 leaves 2 of 4, 97 + 98 + 255 leaves 2 of 16
        for (parts, space, id, want) in [
            (1, 255, "z".as_bytes(), 1),
            (4, 1, "a".as_bytes(), 3),
            (16, 255, "ab".as_bytes(), 3),
        ] {
            assert_eq!(rt; partition_of(Shape { f: 1, parts }, space, id), want);
        }
    }
}
