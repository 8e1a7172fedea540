//! Exact division of a word by a word, by the divisor's multiplier and shift.

ghost use Rattle.std.specs.Prelude.{◌≡◌, ℕ};
ghost use Rattle.modular_word.specs.Division.{IsExactQuotient};

// rust: use crate::additions::Divide1by1;
use crate::one_by_one::{FitsDivisor, PreMulInv1by1};
use modular_prim::exact::{DivExact, DivExactAssign, assign_exact};
use modular_word::path_word::PathWord;
// rattle: line
use modular_word::ring_word::RingWord;

/// The quotient by d; `None` exactly where d doesn't divide n.
///
/// # Conditions
///
/// - (debug) the divider is that of the divisor d
// rust: #[cfg_attr(debug_assertions, track_caller)]
pub fn exact_quotient<T: PathWord>(n: T, d: T, divider: &PreMulInv1by1<T>) -> Option<T>
    requires { ⟦<PreMulInv1by1<T> as FitsDivisor>⟧.fits divider.now (T.number d) }
    ensures { IsExactQuotient T.number (T.number n) (T.number d) result }
{
    let (q, r) = divider.div_rem(n, d);
    if r.is_zero_word() { Some(q) } else { None }
}

impl DivExact<u8, PreMulInv1by1<u8>> for u8 {
    type Output = u8;

    ghost fits = { λ d s. ⟦<PreMulInv1by1<u8> as FitsDivisor>⟧.fits s d };

    // rust: #[cfg_attr(debug_assertions, track_caller)]
    fn div_exact(self, d: u8, pre: &PreMulInv1by1<u8>) -> Option<u8> {
        exact_quotient(self, d, pre)
    }
}

impl DivExact<u16, PreMulInv1by1<u16>> for u16 {
    type Output = u16;

    ghost fits = { λ d s. ⟦<PreMulInv1by1<u16> as FitsDivisor>⟧.fits s d };

    // rust: #[cfg_attr(debug_assertions, track_caller)]
    fn div_exact(self, d: u16, pre: &PreMulInv1by1<u16>) -> Option<u16> {
        exact_quotient(self, d, pre)
    }
}

impl DivExact<u32, PreMulInv1by1<u32>> for u32 {
    type Output = u32;

    ghost fits = { λ d s. ⟦<PreMulInv1by1<u32> as FitsDivisor>⟧.fits s d };

    // rust: #[cfg_attr(debug_assertions, track_caller)]
    fn div_exact(self, d: u32, pre: &PreMulInv1by1<u32>) -> Option<u32> {
        exact_quotient(self, d, pre)
    }
}

impl DivExact<u64, PreMulInv1by1<u64>> for u64 {
    type Output = u64;

    ghost fits = { λ d s. ⟦<PreMulInv1by1<u64> as FitsDivisor>⟧.fits s d };

    // rust: #[cfg_attr(debug_assertions, track_caller)]
    fn div_exact(self, d: u64, pre: &PreMulInv1by1<u64>) -> Option<u64> {
        exact_quotient(self, d, pre)
    }
}

// rust: #[cfg(target_pointer_width = "64")]
impl DivExact<usize, PreMulInv1by1<usize>> for usize {
    type Output = usize;

    ghost fits = { λ d s. ⟦<PreMulInv1by1<usize> as FitsDivisor>⟧.fits s d };

    // rust: #[cfg_attr(debug_assertions, track_caller)]
    fn div_exact(self, d: usize, pre: &PreMulInv1by1<usize>) -> Option<usize> {
        exact_quotient(self, d, pre)
    }
}

impl DivExactAssign<u8, PreMulInv1by1<u8>> for u8 {
    // rust: #[cfg_attr(debug_assertions, track_caller)]
    fn div_exact_assign(&mut self, d: u8, pre: &PreMulInv1by1<u8>) -> bool {
        assign_exact(self, d, pre)
    }
}

impl DivExactAssign<u16, PreMulInv1by1<u16>> for u16 {
    // rust: #[cfg_attr(debug_assertions, track_caller)]
    fn div_exact_assign(&mut self, d: u16, pre: &PreMulInv1by1<u16>) -> bool {
        assign_exact(self, d, pre)
    }
}

impl DivExactAssign<u32, PreMulInv1by1<u32>> for u32 {
    // rust: #[cfg_attr(debug_assertions, track_caller)]
    fn div_exact_assign(&mut self, d: u32, pre: &PreMulInv1by1<u32>) -> bool {
        assign_exact(self, d, pre)
    }
}

impl DivExactAssign<u64, PreMulInv1by1<u64>> for u64 {
    // rust: #[cfg_attr(debug_assertions, track_caller)]
    fn div_exact_assign(&mut self, d: u64, pre: &PreMulInv1by1<u64>) -> bool {
        assign_exact(self, d, pre)
    }
}

// rust: #[cfg(target_pointer_width = "64")]
impl DivExactAssign<usize, PreMulInv1by1<usize>> for usize {
    // rust: #[cfg_attr(debug_assertions, track_caller)]
    fn div_exact_assign(&mut self, d: usize, pre: &PreMulInv1by1<usize>) -> bool {
        assign_exact(self, d, pre)
    }
}
