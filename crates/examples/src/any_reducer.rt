//! Computations over any reducer: stated once, for every word and every modulus.

ghost use Rattle.num_modular.specs.Checked.{IsChecked};
ghost use Rattle.std.specs.Prelude.{◌≡◌, ◌+◌, ◌*◌, ◌%◌};

use num_modular::{Reducer, RingWord};

/// x modulo m, by way of its form.
///
/// # Examples
///
/// ```
/// use num_modular::applications::examples::any_reducer::round_trip;
/// use num_modular::Montgomery;
///
/// let ring = Montgomery::<u64>::new(97);
/// assert_eq!(round_trip(&ring, 100), 3);
/// ```
pub fn round_trip<T: RingWord, R: Reducer<T>>(r: &R, x: T) -> T
    ensures { T.number result ≡ T.number x % R.modulus r.now }
{
    r.residue(r.transform(x))
}

/// x·y + 1 modulo m.
///
/// # Examples
///
/// ```
/// use num_modular::applications::examples::any_reducer::product_and_one;
/// use num_modular::Montgomery;
///
/// let ring = Montgomery::<u64>::new(97);
/// assert_eq!(product_and_one(&ring, 10, 20), 7); // 201 - 2 * 97
/// ```
#[tactic(auto, using(num_modular::specs::Remainders::remainders))]
pub fn product_and_one<T: RingWord, R: Reducer<T>>(r: &R, x: T, y: T) -> T
    ensures { T.number result ≡ (T.number x * T.number y + 1) % R.modulus r.now }
{
    let product = r.mul(&r.transform(x), &r.transform(y));
    r.residue(r.add(&product, &r.transform(T::one())))
}

// The form of a product of two words.
#[tactic(auto, using(num_modular::specs::Remainders::remainders))]
fn product<T: RingWord, R: Reducer<T>>(r: &R, x: T, y: T) -> T
    ensures checked { IsChecked R.Reducer T.number r.now result }
    ensures value { R.value (R.modulus r.now) (T.number result) ≡ (T.number x * T.number y) % R.modulus r.now }
{
    r.mul(&r.transform(x), &r.transform(y))
}

/// The inner product of four words with four others, modulo m.
///
/// # Examples
///
/// ```
/// use num_modular::applications::examples::any_reducer::inner_product_of_four;
/// use num_modular::Montgomery;
///
/// let ring = Montgomery::<u64>::new(50);
/// assert_eq!(inner_product_of_four(&ring, (1, 2, 3, 4), (5, 6, 7, 8)), 20); // 5 + 12 + 21 + 32 - 50
/// ```
#[tactic(auto, using(num_modular::specs::Remainders::remainders))]
pub fn inner_product_of_four<T: RingWord, R: Reducer<T>>(
    r: &R,
    x: (T, T, T, T),
    y: (T, T, T, T),
) -> T
    ensures { T.number result
        ≡ (T.number x.0 * T.number y.0 + T.number x.1 * T.number y.1
        + (T.number x.2 * T.number y.2 + T.number x.3 * T.number y.3)) % R.modulus r.now }
{
    let left = r.add(&product(r, x.0, y.0), &product(r, x.1, y.1));
    let right = r.add(&product(r, x.2, y.2), &product(r, x.3, y.3));
    r.residue(r.add(&left, &right))
}

/// The first word of x, one more than its product with the first of y, and the inner product, modulo m.
///
/// # Examples
///
/// ```
/// use num_modular::applications::examples::any_reducer::three_results;
/// use num_modular::Montgomery;
///
/// let ring = Montgomery::<u64>::new(50);
/// assert_eq!(three_results(&ring, (1, 2, 3, 4), (5, 6, 7, 8)), (1, 6, 20));
/// ```
pub fn three_results<T: RingWord, R: Reducer<T>>(
    r: &R,
    x: (T, T, T, T),
    y: (T, T, T, T),
) -> (T, T, T)
    ensures trip { T.number result.0 ≡ T.number x.0 % R.modulus r.now }
    ensures one { T.number result.1 ≡ (T.number x.0 * T.number y.0 + 1) % R.modulus r.now }
    ensures inner { T.number result.2
        ≡ (T.number x.0 * T.number y.0 + T.number x.1 * T.number y.1
        + (T.number x.2 * T.number y.2 + T.number x.3 * T.number y.3)) % R.modulus r.now }
{
    (
        round_trip(r, x.0),
        product_and_one(r, x.0, y.0),
        inner_product_of_four(r, x, y),
    )
}
