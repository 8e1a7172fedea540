//! Transforms by a table: it has twiddle factors with their quotients, and is the caller's.
//!
//! Moduli are at most a quarter of the base. An entry of the table is a `Factor`, or a struct of the caller
//! (`PlanEntry`). `ring` has the transforms that need no table, over any reducer, and `find_root`.
//!
//! `Plan` knows that its table is that of its root, and asks only for lists that fit. It borrows the table. `OwnedPlan` keeps
//! its own, so that a struct can keep one, and lends a `Plan` for each call. The functions over a table also ask for the
//! table's factors.
//!
//! # Conditions
//!
//! Each call that has such arguments also requires:
//!
//! - the entries are below 4m
//! - the table's entries are factors modulo m
//! - the factor was made by this modulus

pub use modular_plan_passes::factor::{Factor, PlanEntry};
pub use modular_plan_passes::modulus::PlannedModulus;
pub use modular_plan_passes::table::fill_table;
pub use modular_plan_transforms::convolution::{
    convolve_block, convolve_negacyclic, convolve_planned, convolves,
};
pub use modular_plan_transforms::join::{join, join_scaled};
pub use modular_plan_transforms::owned::OwnedPlan;
pub use modular_plan_transforms::plan::Plan;
pub use modular_plan_transforms::products::multiply;
pub use modular_plan_transforms::split::{ntt_planned, split, splits};
