use super::fixtures::all_told;
use std::test::Fail;
use us_base::Shape;

/// One site, one partition.
const ONE: Shape = Shape { f: 0, parts: 1 };

/// Seven sites, sixteen partitions.
const SEVEN: Shape = Shape { f: 3, parts: 16 };

/// Lines, and behind the bar what each says to one site of one partition.
const LINES_OF_ONE: &str = "bytes 1 1 1 0g|BadHex
deliver 01|BadNumber
sleep 1|BadWord
open 1 1|open 1 1
open 2 1|OutOfRange
open 1 2|OutOfRange
tick 1 0 5|tick 1 0 5
tick 1 1 5|tick 1 1 5
tick 1 2 5|OutOfRange
flush 1 1|flush 1 1
flush 1 2|OutOfRange
forward 1 1|OutOfRange
forward 1 2|OutOfRange";

/// Lines, and behind the bar what each says to seven sites of sixteen partitions.
const LINES_OF_SEVEN: &str = "open 7 16|open 7 16
open 8 16|OutOfRange
open 7 17|OutOfRange
tick 7 16 5|tick 7 16 5
tick 7 17 5|OutOfRange
forward 7 1|forward 7 1
forward 7 7|OutOfRange
flush 7 8|OutOfRange
crash 7|crash 7
crash 8|OutOfRange
lead 7|lead 7
lead 0|OutOfRange";

#[test]
fn one_site(rt: HostRuntime) -> Result<(), Fail> {
    all_told(&rt, rt.alloc(), LINES_OF_ONE, ONE)
}

#[test]
fn seven_sites(rt: HostRuntime) -> Result<(), Fail> {
    all_told(&rt, rt.alloc(), LINES_OF_SEVEN, SEVEN)
}
