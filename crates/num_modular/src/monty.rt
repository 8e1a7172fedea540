//! Montgomery's representation: its reducers, and the negated inverse modulo the base, which it uses.

pub use modular_monty::fixed::{FixedMontgomery32, FixedMontgomery64};
pub use modular_monty::montgomery::Montgomery;
pub use modular_monty::neg_mod_inv;
pub use modular_monty::odd_montgomery::OddMontgomery;
