//! Exact division of a word by a word.

use super::{PreModInv, PreparedInverse, word_quotient};
use modular_prim::exact::{DivExact, DivExactAssign, assign_exact};

impl DivExact<u8, PreModInv<u8>> for u8 {
    type Output = u8;

    ghost fits = { λ d pre. ⟦<PreModInv<u8> as PreparedInverse>⟧.fits pre d };

    // rust: #[cfg_attr(debug_assertions, track_caller)]
    fn div_exact(self, d: u8, pre: &PreModInv<u8>) -> Option<u8> {
        word_quotient(self, d, pre)
    }
}

impl DivExact<u16, PreModInv<u16>> for u16 {
    type Output = u16;

    ghost fits = { λ d pre. ⟦<PreModInv<u16> as PreparedInverse>⟧.fits pre d };

    // rust: #[cfg_attr(debug_assertions, track_caller)]
    fn div_exact(self, d: u16, pre: &PreModInv<u16>) -> Option<u16> {
        word_quotient(self, d, pre)
    }
}

impl DivExact<u32, PreModInv<u32>> for u32 {
    type Output = u32;

    ghost fits = { λ d pre. ⟦<PreModInv<u32> as PreparedInverse>⟧.fits pre d };

    // rust: #[cfg_attr(debug_assertions, track_caller)]
    fn div_exact(self, d: u32, pre: &PreModInv<u32>) -> Option<u32> {
        word_quotient(self, d, pre)
    }
}

impl DivExact<u64, PreModInv<u64>> for u64 {
    type Output = u64;

    ghost fits = { λ d pre. ⟦<PreModInv<u64> as PreparedInverse>⟧.fits pre d };

    // rust: #[cfg_attr(debug_assertions, track_caller)]
    fn div_exact(self, d: u64, pre: &PreModInv<u64>) -> Option<u64> {
        word_quotient(self, d, pre)
    }
}

// rust: #[cfg(target_pointer_width = "64")]
impl DivExact<usize, PreModInv<usize>> for usize {
    type Output = usize;

    ghost fits = { λ d pre. ⟦<PreModInv<usize> as PreparedInverse>⟧.fits pre d };

    // rust: #[cfg_attr(debug_assertions, track_caller)]
    fn div_exact(self, d: usize, pre: &PreModInv<usize>) -> Option<usize> {
        word_quotient(self, d, pre)
    }
}

impl DivExactAssign<u8, PreModInv<u8>> for u8 {
    // rust: #[cfg_attr(debug_assertions, track_caller)]
    fn div_exact_assign(&mut self, d: u8, pre: &PreModInv<u8>) -> bool {
        assign_exact(self, d, pre)
    }
}

impl DivExactAssign<u16, PreModInv<u16>> for u16 {
    // rust: #[cfg_attr(debug_assertions, track_caller)]
    fn div_exact_assign(&mut self, d: u16, pre: &PreModInv<u16>) -> bool {
        assign_exact(self, d, pre)
    }
}

impl DivExactAssign<u32, PreModInv<u32>> for u32 {
    // rust: #[cfg_attr(debug_assertions, track_caller)]
    fn div_exact_assign(&mut self, d: u32, pre: &PreModInv<u32>) -> bool {
        assign_exact(self, d, pre)
    }
}

impl DivExactAssign<u64, PreModInv<u64>> for u64 {
    // rust: #[cfg_attr(debug_assertions, track_caller)]
    fn div_exact_assign(&mut self, d: u64, pre: &PreModInv<u64>) -> bool {
        assign_exact(self, d, pre)
    }
}

// rust: #[cfg(target_pointer_width = "64")]
impl DivExactAssign<usize, PreModInv<usize>> for usize {
    // rust: #[cfg_attr(debug_assertions, track_caller)]
    fn div_exact_assign(&mut self, d: usize, pre: &PreModInv<usize>) -> bool {
        assign_exact(self, d, pre)
    }
}
