//! The moduli of plans, factors and tables of twiddle factors, which the caller owns, and the passes of splits and joins by
//! them over a list: a stage of all blocks, or two.
#![tactic(auto)]

pub mod factor;
pub mod join_stages;
pub mod join_steps;
pub mod modulus;
pub mod passes;
pub mod split_stages;
pub mod split_steps;
pub mod table;
