//! Division by an invariant divisor without a division instruction, and the reducer that uses it.
#![tactic(auto)]

// rust instead: pub(crate) mod computed;
mod computed;
pub mod exact;
mod list_products;
pub mod normalized;
pub mod one_by_one;
pub mod premul;
