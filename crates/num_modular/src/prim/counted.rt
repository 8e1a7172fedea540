//! Calls that also return how many steps they took, in one module for each width.

/// Words of 8 bits.
pub mod w8 {
    pub use modular_prim::counted::w8::invm_counted;
    pub use modular_symbols::counted::w8::checked_jacobi_counted;
}

/// Words of 16 bits.
pub mod w16 {
    pub use modular_prim::counted::w16::invm_counted;
    pub use modular_symbols::counted::w16::checked_jacobi_counted;
}

/// Words of 32 bits.
pub mod w32 {
    pub use modular_prim::counted::w32::invm_counted;
    pub use modular_symbols::counted::w32::checked_jacobi_counted;
}

/// Words of 64 bits.
pub mod w64 {
    pub use modular_prim::counted::w64::invm_counted;
    pub use modular_symbols::counted::w64::checked_jacobi_counted;
}

/// Words of the pointer width.
// rust: #[cfg(target_pointer_width = "64")]
pub mod wsize {
    pub use modular_prim::counted::wsize::invm_counted;
    pub use modular_symbols::counted::wsize::checked_jacobi_counted;
}
