//! Runs of commands, the output and the exit status of the program, transforms compared with plain sums, and plans.

// `assert!` writes the text of what it compares, which takes longer to prove than the rest of most tests.
macro_rules! check {
    ($rt:expr, $number:literal; $holds:expr) => {
        crate::tests::assert_nth($rt, $number, $holds)
    };
}

mod callers;
mod commands;
mod edges;
mod factors;
mod fixed;
mod hostile;
mod integers;
mod lists;
// rattle: line
mod modrun;
mod owned_plans;
mod plan_callers;
mod plan_rows;
mod plan_values;
mod plans;
mod products;
mod questions;
mod reducers;
mod reversals;
mod roots;
mod run_callers;
mod runs;
mod transform_callers;
mod transforms;

use std::fmt::Debug;
use std::process::Abort;

/// Asserts that what is compared at these values holds; else prints the values.
pub fn assert_at<V: Debug>(rt: &impl Abort, holds: bool, values: &V) {
    assert!(rt; holds, "{values:?}");
}

/// Asserts that the check of this number in a test holds; else prints the number.
pub fn assert_nth(rt: &impl Abort, number: u32, holds: bool) {
    assert!(rt; holds, "check {number}");
}

/// Asserts that no row is wrong; else prints the place of the first that is.
pub fn assert_right(rt: &impl Abort, first_wrong: Option<usize>) {
    assert!(rt; first_wrong.is_none(), "{first_wrong:?}");
}
