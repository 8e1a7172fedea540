//! Transforms by a table: all stages from a polynomial to its remainders and back, products of blocks and of polynomials,
//! the transform in natural order, and a plan as one value.
#![tactic(auto)]

pub mod convolution;
pub mod filled;
pub mod join;
pub mod owned;
pub mod plan;
pub mod products;
pub mod split;
pub mod tables;
