//! Erasures by transforms: `pattern` restores lost symbols of words whose points are the powers of a root of unity, in
//! O(n·log n).
#![tactic(auto)]

mod derivative;
pub mod pattern;
mod places;
