//! Newton's form of the polynomial through given points, and its coefficients.

ghost use Rattle.std.specs.Prelude.{◌≡◌, ℕ, ◌+◌, ◌*◌, ◌%◌, ◌<◌, ◌≤◌, length};
ghost use Rattle.num_modular.specs.Congruence.{Congruent};
ghost use Rattle.num_modular.specs.Entries.{entry};
ghost use Rattle.num_modular.specs.Checked.{AreChecked, IsChecked};
ghost use Rattle.num_modular.specs.Inverses.{IsInverse};
ghost use Rattle.num_modular.specs.Polynomials.{polynomial_at};
ghost use Rattle.num_modular.specs.Products.{product_below};
ghost use Rattle.ring_codes.specs.Newton.{difference, newton_form};
ghost use Rattle.ring_codes.specs.Prepared.{product_but};

use num_modular::{Reducer, RingWord};

/// The form of the product of the differences of a point and each point before it.
///
/// # Preconditions
///
/// - the points are checked forms
/// - there is a point at the place
#[tactic(auto, using(num_modular::specs::Callers::product_none, num_modular::specs::Callers::form_read, num_modular::specs::Callers::entry, num_modular::specs::Callers::product_below, num_modular::specs::Callers::entry_read, num_modular::specs::Callers::product_step))]
pub fn differences_before<T: RingWord, R: Reducer<T>>(r: &R, points: &[T], place: usize) -> T
    requires checked { AreChecked R.Reducer T.number r.now points.now }
    requires within { place < length points.now }
    ensures checked { IsChecked R.Reducer T.number r.now result }
    ensures value { let m = R.modulus r.now in R.value m (T.number result)
        ≡ product_below place (difference m (entry T.number R.value m points.now) place) % m }
{
    let mut product = r.transform(T::one());
    'differences: for j in 0..place {
        let difference = r.sub(&points[place], &points[j]);
        product = r.mul(&product, &difference);
    }
    product
}

// Multiplies each of the products from `start` to before `end` by the difference of its point from that at a place.
#[tactic(auto, using(num_modular::specs::Callers::form_read))]
fn multiply_by_differences<T: RingWord, R: Reducer<T>>(
    r: &R,
    points: &[T],
    place: usize,
    start: usize,
    end: usize,
    products: &mut [T],
)
    requires points { AreChecked R.Reducer T.number r.now points.now }
    requires products { AreChecked R.Reducer T.number r.now products.old }
    requires inside { place < length points.now }
    requires ordered { start ≤ end }
    requires points_within { end ≤ length points.now }
    requires products_within { end ≤ length products.old }
    ensures checked { AreChecked R.Reducer T.number r.now products.new }
    ensures multiplied { let m = R.modulus r.now in (i : ℕ) → start ≤ i → i < end →
        entry T.number R.value m products.new i
        ≡ (entry T.number R.value m products.old i * difference m (entry T.number R.value m points.now) i place) % m }
    ensures before { let m = R.modulus r.now in (i : ℕ) → i < start →
        entry T.number R.value m products.new i ≡ entry T.number R.value m products.old i }
    ensures behind { let m = R.modulus r.now in (i : ℕ) → end ≤ i →
        entry T.number R.value m products.new i ≡ entry T.number R.value m products.old i }
{
    'points: for i in start..end {
        let difference = r.sub(&points[i], &points[place]);
        products[i] = r.mul(&products[i], &difference);
    }
}

/// Writes, for each point, the product of its differences from those before it, for as many points as there are
/// weights.
///
/// Point after point, each difference is multiplied into the products of all later points, which are independent.
///
/// # Preconditions
///
/// - the points are checked forms
/// - there are as many points as weights or more
#[tactic(auto, using(num_modular::specs::Callers::held_forms, num_modular::specs::Callers::product_none, num_modular::specs::Callers::held_entry, num_modular::specs::Callers::product_step, std::proofs::lemmas::Bool::cases_lt))]
pub fn fill_weights<T: RingWord, R: Reducer<T>>(r: &R, points: &[T], weights: &mut [T])
    requires checked { AreChecked R.Reducer T.number r.now points.now }
    requires within { length weights.old ≤ length points.now }
    ensures checked { AreChecked R.Reducer T.number r.now weights.new }
    ensures values { let m = R.modulus r.now in (i : ℕ) → i < length weights.old →
        entry T.number R.value m weights.new i
        ≡ product_below i (difference m (entry T.number R.value m points.now) i) % m }
{
    let one = r.transform(T::one());
    'ones: for i in 0..weights.len() {
        weights[i] = one;
    }
    'points: for j in 0..weights.len() {
        multiply_by_differences(r, points, j, j + 1, weights.len(), weights);
    }
}

/// Writes products of differences: for each of n points that of its differences from the other ones.
///
/// It takes n·(n - 1) products.
///
/// # Conditions
///
/// - there are n products
/// - (debug) the points are checked forms
///
/// # Examples
///
/// ```
/// use num_modular::applications::ring_codes::erasure::fill_differences;
/// use num_modular::{Reducer, Vanilla};
///
/// let ring = Vanilla::<u8>::new(&97);
/// let mut products = [0; 3];
/// fill_differences(&ring, &[0, 1, 3], &mut products);
/// assert_eq!(products, [3, 95, 6]); // (0 - 1)(0 - 3), (1 - 0)(1 - 3) and (3 - 0)(3 - 1)
/// ```
// rust: #[track_caller]
#[tactic(auto, using(crate::proofs::Lagrange::products_so_far_none))]
pub fn fill_differences<T: RingWord, R: Reducer<T>>(r: &R, points: &[T], products: &mut [T])
    requires points { AreChecked R.Reducer T.number r.now points.now }
    requires room { length products.old ≡ length points.now }
    ensures checked { AreChecked R.Reducer T.number r.now products.new }
    ensures products { let m = R.modulus r.now in let x = entry T.number R.value m points.now in
        (i : ℕ) → i < length points.now →
        entry T.number R.value m products.new i ≡ product_but m (length points.now) x i (x i) % m }
{
    // rust: debug_assert!(points.iter().all(|x| r.check(x)), "the points must be checked forms");
    // rust: assert!(products.len() == points.len(), "there must be n products: {} and {}", products.len(), points.len());
    fill_weights(r, points, products);
    'points: for k in 0..points.len() {
        let j = points.len() - 1 - k;
        multiply_by_differences(r, points, j, 0, j, products);
    }
}

// A step towards the value of Newton's form: a coefficient, plus the value so far times the difference from its point.
#[tactic(auto, using(num_modular::specs::Callers::form_read))]
fn newton_step<T: RingWord, R: Reducer<T>>(r: &R, coefficient: &T, difference: &T, value: &T) -> T
    requires coefficient { IsChecked R.Reducer T.number r.now coefficient.now }
    requires difference { IsChecked R.Reducer T.number r.now difference.now }
    requires value { IsChecked R.Reducer T.number r.now value.now }
    ensures checked { IsChecked R.Reducer T.number r.now result }
    ensures value { let m = R.modulus r.now in R.value m (T.number result)
        ≡ (R.value m (T.number coefficient.now)
        + R.value m (T.number difference.now) * R.value m (T.number value.now)) % m }
{
    let product = r.mul(difference, value);
    r.add(coefficient, &product)
}

/// The value at a point of Newton's form with the first `count` coefficients.
///
/// The two halves of the coefficients go side by side, with the product of the differences from the points of the lower
/// half. It takes about 3/2 products for each coefficient.
///
/// # Preconditions
///
/// - points, form and point are checked forms
/// - there are at least `count` points and coefficients
#[tactic(auto, using(num_modular::specs::Callers::form_read))]
pub fn newton_value<T: RingWord, R: Reducer<T>>(
    r: &R,
    points: &[T],
    form: &[T],
    count: usize,
    point: &T,
) -> T
    requires points { AreChecked R.Reducer T.number r.now points.now }
    requires form { AreChecked R.Reducer T.number r.now form.now }
    requires point { IsChecked R.Reducer T.number r.now point.now }
    requires points_within { count ≤ length points.now }
    requires form_within { count ≤ length form.now }
    ensures checked { IsChecked R.Reducer T.number r.now result }
    ensures value { let m = R.modulus r.now in R.value m (T.number result)
        ≡ newton_form m (entry T.number R.value m form.now) (entry T.number R.value m points.now)
        (R.value m (T.number point.now)) 0 count % m }
{
    let half = count / 2;
    let mut low = r.transform(T::zero());
    let mut product = r.transform(T::one());
    let mut high = if count % 2 == 1 { form[count - 1] } else { low };
    'coefficients: for k in 0..half {
        let (i, j) = (half - 1 - k, 2 * half - 1 - k);
        let difference = r.sub(point, &points[i]);
        low = newton_step(r, &form[i], &difference, &low);
        product = r.mul(&product, &difference);
        let difference = r.sub(point, &points[j]);
        high = newton_step(r, &form[j], &difference, &high);
    }
    newton_step(r, &low, &product, &high)
}

/// Replaces the values at the points by the coefficients of Newton's form, by divided differences: the difference
/// of each value and of the form so far is divided once.
///
/// # Preconditions
///
/// - points, inverses and values are checked forms
/// - there are as many points and inverses as values or more
/// - each inverse is that of the product of the point's differences from those before it
#[tactic(auto, using(num_modular::specs::Callers::form_read, num_modular::specs::Callers::entry))]
pub fn divide_differences<T: RingWord, R: Reducer<T>>(
    r: &R,
    points: &[T],
    inverses: &[T],
    values: &mut [T],
)
    requires points { AreChecked R.Reducer T.number r.now points.now }
    requires inverses { AreChecked R.Reducer T.number r.now inverses.now }
    requires values { AreChecked R.Reducer T.number r.now values.old }
    requires points_within { length values.old ≤ length points.now }
    requires inverses_within { length values.old ≤ length inverses.now }
    requires inverse { let m = R.modulus r.now in (i : ℕ) → i < length values.old →
        IsInverse m (product_below i (difference m (entry T.number R.value m points.now) i))
        (entry T.number R.value m inverses.now i) }
    ensures checked { AreChecked R.Reducer T.number r.now values.new }
    ensures values { let m = R.modulus r.now in let x = entry T.number R.value m points.now in
        (i : ℕ) → i < length values.old →
        newton_form m (entry T.number R.value m values.new) x (x i) 0 (length values.old) % m
        ≡ entry T.number R.value m values.old i }
{
    'points: for i in 0..values.len() {
        let known = newton_value(r, points, values, i, &points[i]);
        let rest = r.sub(&values[i], &known);
        values[i] = r.mul(&rest, &inverses[i]);
    }
}

/// Subtracts, from each value from an index on but the last, the point times the next value.
///
/// # Preconditions
///
/// - point and values are checked forms
/// - there is a value at the place
pub fn subtract_multiples<T: RingWord, R: Reducer<T>>(
    r: &R,
    point: &T,
    values: &mut [T],
    from: usize,
)
    requires point { IsChecked R.Reducer T.number r.now point.now }
    requires values { AreChecked R.Reducer T.number r.now values.old }
    requires within { from < length values.old }
    ensures checked { AreChecked R.Reducer T.number r.now values.new }
    ensures done { let m = R.modulus r.now in (i : ℕ) → from ≤ i → i + 1 < length values.old →
        Congruent m (entry T.number R.value m values.new i
        + R.value m (T.number point.now) * entry T.number R.value m values.old (i + 1))
        (entry T.number R.value m values.old i) }
    ensures before { let m = R.modulus r.now in (i : ℕ) → i < from →
        entry T.number R.value m values.new i ≡ entry T.number R.value m values.old i }
    ensures last { let m = R.modulus r.now in (i : ℕ) → length values.old ≤ i + 1 →
        entry T.number R.value m values.new i ≡ entry T.number R.value m values.old i }
{
    'places: for i in from + 1..values.len() {
        let product = r.mul(point, &values[i]);
        values[i - 1] = r.sub(&values[i - 1], &product);
    }
}

/// Replaces the coefficients of Newton's form by those of the polynomial, the constant first.
///
/// # Preconditions
///
/// - points and form are checked forms
/// - there are as many points as coefficients or more
#[tactic(auto, using(num_modular::specs::Callers::form_read, crate::proofs::Symbols::back_within))]
pub fn expand<T: RingWord, R: Reducer<T>>(r: &R, points: &[T], form: &mut [T])
    requires points { AreChecked R.Reducer T.number r.now points.now }
    requires form { AreChecked R.Reducer T.number r.now form.old }
    requires within { length form.old ≤ length points.now }
    ensures checked { AreChecked R.Reducer T.number r.now form.new }
    ensures same { let m = R.modulus r.now in (a : ℕ) →
        Congruent m (polynomial_at (length form.old) (entry T.number R.value m form.new) a)
        (newton_form m (entry T.number R.value m form.old) (entry T.number R.value m points.now) a 0
        (length form.old)) }
{
    'points: for k in 0..form.len() {
        let from = form.len() - 1 - k;
        subtract_multiples(r, &points[from], form, from);
    }
}
