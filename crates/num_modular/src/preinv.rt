//! Exact division by an invariant odd divisor.

pub use modular_monty::preinv::{PreModInv, PreparedInverse};
