//! The negated inverse of an odd word modulo the base, in one module for each width.

pub use modular_word::paths::neginv;

pub mod w16;
pub mod w32;
pub mod w64;
pub mod w8;
// rust: #[cfg(target_pointer_width = "64")]
pub mod wsize;
