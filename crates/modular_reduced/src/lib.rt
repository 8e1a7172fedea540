//! Rings of residues: reducers, which compute with forms modulo m, and integers modulo m over any reducer.
#![tactic(auto)]

pub mod lanes;
// tests: item
pub mod laws;
pub mod list_products;
pub mod modular_integer;
pub mod power;
pub mod reduced_int;
pub mod reducer;
pub mod vanilla;
