//! Number-theoretic transforms and cyclic products, in place, over any reducer, their passes of one stage or two, and
//! lists of forms.
#![tactic(auto)]

pub mod convolution;
pub mod inverse;
// rattle: line
pub mod laws;
pub mod lists;
pub mod order;
// tests: item
pub mod plain;
pub mod roots;
pub mod stage;
pub mod transform;
pub mod two_stages;
