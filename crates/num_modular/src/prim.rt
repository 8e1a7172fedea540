//! Modular operations and symbols of plain integers.

pub mod by_subtraction;
pub mod counted;

pub use modular_prim::exact::{DivExact, DivExactAssign};
pub use modular_prim::numbered::Numbered;
pub use modular_prim::operations::{ModularAbs, ModularCoreOps, ModularPow, ModularUnaryOps};
pub use modular_prim::power::{powm_u32, powm_u64};
pub use modular_symbols::operands::{IntegerValued, SymbolWord, UnsignedOperand};
pub use modular_symbols::operations::ModularOps;
pub use modular_symbols::primes::symbol_over_prime;
pub use modular_symbols::reference_operations::ModularRefOps;
pub use modular_symbols::symbols::ModularSymbols;
