//! Calls that also return how many steps they took, in one module for each width.

pub mod w16;
pub mod w32;
pub mod w64;
pub mod w8;
// rust: #[cfg(target_pointer_width = "64")]
pub mod wsize;
