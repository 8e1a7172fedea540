//! Division by an invariant divisor, and the reducer that uses it.

// rust: pub use crate::additions::{Divide1by1, Divide2by1};
pub use modular_barrett::normalized::{Normalized2by1Divisor, StoredDivisor};
pub use modular_barrett::one_by_one::{FitsDivisor, PreMulInv1by1};
pub use modular_barrett::premul::PreMulInv2by1;
