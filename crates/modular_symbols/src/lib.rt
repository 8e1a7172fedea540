//! The Legendre, Jacobi and Kronecker symbols of signed and unsigned machine words, and the traits that combine the
//! modular operations.
#![tactic(auto)]

// tests: item
pub mod count;
pub mod counted;
pub mod halving;
// rattle: line
pub mod laws;
pub mod low_part;
pub mod magnitudes;
pub mod operands;
pub mod operations;
pub mod primes;
pub mod reference_operations;
pub mod subtraction;
pub mod symbols;
pub mod turns;
