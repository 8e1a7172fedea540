//! The generic types behind the aliases of the root, and the types of their moduli.
//!
//! Code over `OddRing` or `FoldRing` that is generic in the modulus covers its whole family.
//!
//! # Conditions
//!
//! Each call that has such arguments also requires:
//!
//! - the parameters are in range

pub use modular_folds::mersenne::{Mersenne32, Mersenne64};
pub use modular_folds::rings::{FoldModulus, FoldRing};
pub use modular_folds::solinas::{
    Trinomial, Trinomial32, Trinomial64, TrinomialModulus, TrinomialSolinas,
};
pub use modular_monty::odd_ring::{OddModulus, OddRing};
