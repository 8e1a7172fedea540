//! The examples of README and docs/, and more of their kind.
//!
//! Each names `num_modular` alone.
#![tactic(auto)]

pub mod any_reducer;
pub mod commands;
pub mod cubic;
pub mod each_reducer;
pub mod fermat_tests;
pub mod first_use;
pub mod generators;
pub mod hashes;
pub mod inner_products;
pub mod keys;
// rattle: line
pub mod laws;
pub mod operations;
pub mod polynomials;
pub mod quotients;
pub mod repeated_products;
pub mod square_roots;
pub mod squares;
