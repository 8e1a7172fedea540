//! Correction from listed symbols: of Reed and Solomon's codes, over any modulus; in the Cargo crate in `ring_codes::erasure`.
//!
//! `correct` goes by the syndromes of `ring_decoder`, and `recover_correct` corrects shares of Shamir's secrets. `key_equation`
//! and `quotients` have a second method.
#![tactic(auto)]

mod correction;
mod key_equation;
mod quotients;
mod search;
mod secrets;

pub use correction::correct;
pub use secrets::recover_correct;
