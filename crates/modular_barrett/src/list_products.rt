//! Sums of products of two lists of scaled forms, which are reduced once for many products.

ghost use Rattle.std.specs.Prelude.{◌≡◌, ℕ, ◌+◌, ◌*◌, ◌%◌, ◌^◌, ◌<◌, ◌≤◌, length, map, slice_index};
ghost use Rattle.modular_word.specs.Sums.{sum_below};

// rust: use crate::additions::Divide2by1;
use crate::normalized::{Normalized2by1Divisor, StoredDivisor};
use modular_prim::plain_word::PlainWord;
use modular_reduced::list_products::carried_sum;
// rattle: line
use modular_word::path_word::PathWord;
// rattle: line
use modular_word::ring_word::RingWord;

// The remainder of a word with carries above it.
fn upper<T: PlainWord>(divider: &Normalized2by1Divisor<T>, word: T, carries: T) -> T
    ensures { let d = ⟦<Normalized2by1Divisor<T> as StoredDivisor>⟧.divisor divider.now in
        T.number result ≡ (T.number word + T.base * T.number carries) % d }
{
    let rest = divider.div_rem_1by1(carries).1;
    divider.div_rem_2by1(T::merge(word, rest)).1
}

// Of the sum of the products of the entries from index `from` to `to` - 1, divided by 2^shift: the remainder. Each entry
// is a multiple of 2^shift, so the sum is a multiple of 2^(2·shift).
pub(crate) fn reduced_products<T: PlainWord>(
    divider: &Normalized2by1Divisor<T>,
    shift: u32,
    xs: &[T],
    ys: &[T],
    from: usize,
    to: usize,
) -> T
    requires equal { length ys.now ≡ length xs.now }
    requires order { from ≤ to }
    requires within { to ≤ length xs.now }
    requires few { to < from + T.base }
    requires shift { shift < T.width }
    ensures { let d = ⟦<Normalized2by1Divisor<T> as StoredDivisor>⟧.divisor divider.now in
        let f = λ (i : ℕ). slice_index (map T.number xs.now) i * slice_index (map T.number ys.now) i in
        (v : ℕ) → sum_below to f ≡ sum_below from f + 2 ^ shift * (2 ^ shift * v) →
        T.number result ≡ (2 ^ shift * v) % d }
{
    let (sum, carries) = carried_sum(xs, ys, from, to);
    let (low, high) = T::split(sum);
    let rest = upper(divider, high, carries);
    let shifted = T::double_shift_right(T::merge(low, rest), shift);
    divider.div_rem_2by1(shifted).1
}
