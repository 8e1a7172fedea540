//! Generic code over the modular operations of words.

ghost use Rattle.std.specs.Prelude.{◌≡◌, ◌+◌, ◌*◌, ◌%◌, ◌≤◌};

use num_modular::{ModularOps, Montgomery, PlainWord, Reducer, UnsignedOperand};

/// x·y + z modulo m.
///
/// # Preconditions
///
/// - m is at least 1
///
/// # Examples
///
/// ```
/// use num_modular::applications::examples::operations::product_and_sum;
///
/// assert_eq!(product_and_sum(10u8, 20, 5, &97), 11); // 205 - 2 * 97
/// ```
#[tactic(auto, using(num_modular::specs::Remainders::remainders))]
pub fn product_and_sum<M: UnsignedOperand + Copy, T: ModularOps<T, M, T>>(
    x: T,
    y: T,
    z: T,
    m: M,
) -> T
    requires { 1 ≤ M.whole_number m }
    ensures { T.whole_number result ≡ (T.whole_number x * T.whole_number y + T.whole_number z) % M.whole_number m }
{
    x.mulm(y, m).addm(z, m)
}

/// x² modulo m in Montgomery's representation, for every width.
///
/// # Preconditions
///
/// - m is at least 1
///
/// # Examples
///
/// ```
/// use num_modular::applications::examples::operations::square;
///
/// assert_eq!(square(16u8, 251), 5); // 256 - 251
/// ```
#[tactic(auto, using(num_modular::specs::Remainders::remainders))]
pub fn square<T: PlainWord>(x: T, m: T) -> T
    requires { 1 ≤ T.number m }
    ensures { T.number result ≡ (T.number x * T.number x) % T.number m }
{
    // rust instead: let r = Montgomery::<T>::of(m);
    let r = Montgomery::<T>::new(m);
    r.residue(r.sqr(r.transform(x)))
}
