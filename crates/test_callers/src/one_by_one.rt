//! Callers of `PreMulInv1by1`.

ghost use Rattle.modular_word.specs.Division.{IsDivision, IsExactQuotient};

// rust: use crate::additions::Divide1by1;
use modular_barrett::one_by_one::{FitsDivisor, PreMulInv1by1};
use modular_prim::exact::DivExact;
use modular_prim::plain_word::PlainWord;

/// Weeks and the remaining days.
pub fn weeks(days: u8) -> (u8, u8)
    ensures { IsDivision days 7 result.0 result.1 }
{
    let week = PreMulInv1by1::<u8>::new(7);
    week.div_rem(days, 7)
}

/// The number of weeks; `None` exactly where days remain.
pub fn whole_weeks(days: u8) -> Option<u8>
    ensures { IsExactQuotient (λ q. q) days 7 result }
{
    let week = PreMulInv1by1::<u8>::new(7);
    days.div_exact(7, &week)
}

/// Half a number, rounded down, and the remainder.
pub fn halves(n: u8) -> (u8, u8)
    ensures { IsDivision n 2 result.0 result.1 }
{
    let two = PreMulInv1by1::<u8>::new(2);
    two.div_rem(n, 2)
}

/// Quotients and remainders of two words by the same divisor, with one divider.
pub fn both_by_one<T: PlainWord>(divider: &PreMulInv1by1<T>, a: T, b: T, d: T) -> ((T, T), (T, T))
    requires { ⟦<PreMulInv1by1<T> as FitsDivisor>⟧.fits divider.now (T.number d) }
    ensures first { IsDivision (T.number a) (T.number d) (T.number result.0.0) (T.number result.0.1) }
    ensures second { IsDivision (T.number b) (T.number d) (T.number result.1.0) (T.number result.1.1) }
{
    (divider.div_rem(a, d), divider.div_rem(b, d))
}
