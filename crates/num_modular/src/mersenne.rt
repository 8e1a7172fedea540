//! The reducers of the moduli 2^P - K, by folds.
//!
//! # Conditions
//!
//! Each call that has such arguments also requires:
//!
//! - the parameters are in range

pub use modular_folds::mersenne::{FixedMersenne, FixedMersenne32, FixedMersenne64};
