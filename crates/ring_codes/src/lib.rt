//! Codes over any modulus: `erasure` has Reed and Solomon's codes, which restore lost symbols and correct wrong ones,
//! and Shamir's secrets.
//!
//! The codes of check digits are in `check_digits`.
#![tactic(auto)]

pub mod erasure;
// rust: pub mod ring_correction;
// rust: pub mod ring_decoder;
// rust: pub mod ring_erasures;
