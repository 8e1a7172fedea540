//! Reducers, and integers over them.

pub use modular_reduced::modular_integer::ModularInteger;
pub use modular_reduced::power::pow_counted;
pub use modular_reduced::reduced_int::{ReducedInt, VanillaInt};
pub use modular_reduced::reducer::Reducer;
pub use modular_reduced::vanilla::Vanilla;
