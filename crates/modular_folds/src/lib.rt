//! Moduli near a power of two: the paths by folds, which are remainders of double words and products of words,
//! written once for every such modulus, and the reducers that use them.
#![tactic(auto)]

pub mod far;
pub mod fold_word;
pub mod folds;
pub mod mersenne;
pub mod products;
pub mod rings;
pub mod solinas;
