//! Residue number systems beyond `num_modular::residues`.
//!
//! `mixed_radix::System` tests its moduli once, any number of them, computes on encodings, and runs lists of commands on
//! them. `from_remainders` returns the number with two given remainders, and `combine` the one for moduli that may have
//! common divisors.
//!
//! # Conditions
//!
//! Each call that has such arguments also requires:
//!
//! - m and n are at least 1
#![tactic(auto)]

mod combination;
pub mod mixed_radix;
mod remainders;

pub use combination::combine;
pub use remainders::from_remainders;
