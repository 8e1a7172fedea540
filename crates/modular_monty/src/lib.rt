//! Montgomery's representation for every modulus, and exact division by an odd number: both use the inverse of an
//! odd number modulo the base.
#![tactic(auto)]

// rust instead: pub(crate) mod computed;
mod computed;
pub mod fixed;
mod known;
mod list_products;
pub mod montgomery;
pub mod neg_mod_inv;
pub mod odd_montgomery;
pub mod odd_ring;
pub mod preinv;
pub mod proth;
