//! The thresholds of small programs, listed by hand.
use std::test::Fail;
use thresholds::marks;

/// The ends of the integer types, and 0, 1 and -1: what a program without lengths and constants has.
const FIXED: [i128; 15] = [
    -9_223_372_036_854_775_808,
    -2_147_483_648,
    -32_768,
    -128,
    -1,
    0,
    1,
    127,
    255,
    32_767,
    65_535,
    2_147_483_647,
    4_294_967_295,
    9_223_372_036_854_775_807,
    18_446_744_073_709_551_615,
];

fn has_all(ends: &[i128], wanted: &[i128]) -> bool {
    for threshold in wanted {
        if !ends.contains(threshold) {
            return false;
        }
    }
    true
}

#[test]
fn every_program_has_the_ends_of_types(rt: HostRuntime) -> Result<(), Fail> {
    let list = marks(rt.alloc(), &[], &[], &[], &[])?;
    assert!(rt; list.ends() == FIXED.as_slice());
    Ok(())
}

/// `int a[10];` and `a[3] = 7;`
#[test]
fn an_array_and_two_constants(rt: HostRuntime) -> Result<(), Fail> {
    let list = marks(rt.alloc(), &[10], &[3, 7], &[], &[])?;
    let ends = list.ends();
    let all = has_all(ends, &[2, 3, 4, -3, 6, 7, 8, -7, 9, 10]);
    assert!(rt; all & (ends.len() == 25));
    Ok(())
}

#[test]
fn labels_and_given_numbers(rt: HostRuntime) -> Result<(), Fail> {
    let list = marks(rt.alloc(), &[], &[], &[-100], &[17])?;
    let ends = list.ends();
    let all = has_all(ends, &[-101, -100, -99, 100, 17, -17]);
    assert!(rt; all & (ends.len() == 21));
    Ok(())
}
