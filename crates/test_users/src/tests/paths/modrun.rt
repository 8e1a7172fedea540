//! What only a program that prints has.

pub use num_modular::modrun::ReducerName;
