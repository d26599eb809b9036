use super::fixtures::{THREE, all_told};
use std::test::Fail;

const FAULTS_OF_WORDS: &str = " |BadWord
sleep 1|BadWord
Open 1 1|BadWord
open|BadWord
open x|BadWord
open 1 1 |BadWord
 open 1 1|BadWord
 # open 1 1|BadWord
bytes 1 1 1 00 00|BadWord";

const FAULTS_OF_NUMBERS: &str = "open 1 1\r|BadNumber
open  1|BadNumber
open 1 |BadNumber
open 9 -1|BadNumber
deliver 01|BadNumber
deliver 00|BadNumber
deliver +1|BadNumber
deliver 18446744073709551616|BadNumber
deliver 99999999999999999999|BadNumber
bytes 1 1 x 0g|BadNumber
settle 18446744073709551616 x|BadNumber
settle 576460752303423489 01|BadNumber";

const FAULTS_OF_HEX: &str = "bytes 1 1 1 0g|BadHex
bytes 1 1 1 0|BadHex
bytes 9 9 0 0g|BadHex";

const FAULTS_OF_RANGES: &str = "bytes 1 1 1 |OutOfRange
bytes 1 1 0 00|OutOfRange
open 0 1|OutOfRange
open 4 1|OutOfRange
open 1 0|OutOfRange
open 1 3|OutOfRange
open 257 1|OutOfRange
tick 1 3 5|OutOfRange
deliver 0|OutOfRange
forward 2 2|OutOfRange
settle 1 100001|OutOfRange";

#[test]
fn faults_of_words(rt: HostRuntime) -> Result<(), Fail> {
    all_told(&rt, rt.alloc(), FAULTS_OF_WORDS, THREE)
}

#[test]
fn faults_of_numbers(rt: HostRuntime) -> Result<(), Fail> {
    all_told(&rt, rt.alloc(), FAULTS_OF_NUMBERS, THREE)
}

#[test]
fn faults_of_hex(rt: HostRuntime) -> Result<(), Fail> {
    all_told(&rt, rt.alloc(), FAULTS_OF_HEX, THREE)
}

#[test]
fn faults_of_ranges(rt: HostRuntime) -> Result<(), Fail> {
    all_told(&rt, rt.alloc(), FAULTS_OF_RANGES, THREE)
}
