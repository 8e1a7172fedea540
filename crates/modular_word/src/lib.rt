//! Machine words as whole numbers, and the paths: division by a reciprocal, exact division and Montgomery's
//! reduction, each written once for every width.
#![tactic(auto)]

// rattle: line
pub mod laws;
pub mod machine_words;
pub mod path_word;
pub mod paths;
// tests: item
pub mod plain;
pub mod ring_word;
pub mod word;
