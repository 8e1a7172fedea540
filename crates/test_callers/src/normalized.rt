//! Callers of `Normalized2by1Divisor`.

ghost use Rattle.std.specs.Prelude.{◌≡◌, ◌+◌, ◌*◌, ◌%◌, ◌<◌};
ghost use Rattle.modular_word.specs.Division.{IsDivision};

// rust: use crate::additions::Divide2by1;
use modular_barrett::normalized::{Normalized2by1Divisor, StoredDivisor};
use modular_prim::plain_word::PlainWord;

/// Quotient and remainder by the least divisor of 8 bits whose top bit is set.
pub fn by_the_least_divisor(n: u8) -> (u8, u8)
    ensures { IsDivision n 128 result.0 result.1 }
{
    let divider = Normalized2by1Divisor::<u8>::new(128);
    divider.div_rem_1by1(n)
}

/// Quotient and remainder of a number of two bytes whose high byte is below the divisor.
pub fn of_two_bytes() -> (u8, u8)
    ensures { IsDivision 33023 130 result.0 result.1 }
{
    let divider = Normalized2by1Divisor::<u8>::new(130);
    divider.div_rem_2by1(33023)
}

/// The remainder of a number of three words, by two divisions of a double word.
pub fn remainder_of_three<T: PlainWord>(divider: &Normalized2by1Divisor<T>, words: (T, T, T)) -> T
    requires { T.number words.2 < ⟦<Normalized2by1Divisor<T> as StoredDivisor>⟧.divisor divider.now }
    ensures { T.number result ≡ (T.number words.0 + T.base * (T.number words.1 + T.base * T.number words.2))
        % ⟦<Normalized2by1Divisor<T> as StoredDivisor>⟧.divisor divider.now }
{
    let (low, middle, high) = words;
    let (_, rest) = divider.div_rem_2by1(T::merge(middle, high));
    let (_, remainder) = divider.div_rem_2by1(T::merge(low, rest));
    remainder
}
