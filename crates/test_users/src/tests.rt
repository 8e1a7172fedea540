//! Known values of each user from other sources, the README's examples, and calls of `num_modular` that no other crate of
//! tests makes.

// `assert!` writes the text of what it compares, which takes longer to prove than the rest of most tests.
macro_rules! check {
    ($rt:expr, $number:literal; $holds:expr) => {
        crate::tests::assert_nth($rt, $number, $holds)
    };
}

mod any_length;
mod check_symbols;
mod correction;
mod correctors;
mod decimal_digits;
mod each_client;
mod erasure;
mod erasures;
mod first_uses;
mod generic_types;
mod hashes;
mod known_products;
mod lattices;
mod long_products;
mod loops;
mod paths;
mod polynomials;
mod prepared_codes;
mod reducers;
mod residue_systems;
mod residues;

use std::fmt::Debug;
use std::process::Abort;

/// Asserts that what is compared at these values holds; else prints the values.
pub fn assert_at<V: Debug>(rt: &impl Abort, holds: bool, values: &V) {
    assert!(rt; holds, "{values:?}");
}

/// Asserts that the check of this number in a test holds; else prints the number.
pub fn assert_nth(rt: &impl Abort, number: u32, holds: bool) {
    assert!(rt; holds, "check {number}");
}
