//! Decoding of Reed and Solomon's codes over any modulus by syndromes: `corrector` corrects wrong symbols and restores lost
//! ones, in place; `syndromes`, `locator` and `errors` have its steps.
#![tactic(auto)]

mod checks;
mod choices;
pub mod corrector;
mod decoding;
mod errors;
mod locator;
mod places;
mod roots;
mod search;
mod syndromes;

pub use syndromes::syndromes_law;
