//! The number-theoretic transform in place.

ghost use Rattle.std.specs.Prelude.{◌≡◌, ℕ, ◌+◌, ◌-◌, ◌*◌, ◌/◌, ◌^◌, ◌<◌, ◌↔◌, IsTrue, length, slice_index};
ghost use Rattle.modular_reduced.specs.Checked.{AreChecked, IsChecked};
ghost use Rattle.modular_reduced.specs.Values.{values_of, HoldValues};
ghost use Rattle.modular_transform.specs.Transforms.{Suits, transform};

use crate::order::reverse_places;
use crate::stage::first_stage;
use crate::two_stages::two_stages;
use modular_reduced::reducer::Reducer;
use modular_word::ring_word::RingWord;

/// Whether g suits n entries: n is a power of two, and for n above 1 the value of g to the power n/2 is -1 modulo m.
///
/// n may be too large for a word.
///
/// # Preconditions
///
/// - g is a checked form
///
/// # Examples
///
/// ```
/// use num_modular::ring::root_fits;
/// use num_modular::{Reducer, Vanilla};
///
/// let ring = Vanilla::<u64>::new(&97);
/// assert!(root_fits(&ring, &22, 4)); // 22^2 = 5 * 97 - 1
/// assert!(!root_fits(&ring, &22, 8));
/// ```
pub fn root_fits<T: RingWord, R: Reducer<T>>(r: &R, g: &T, n: usize) -> bool
    requires { IsChecked R.Reducer T.number r.now g.now }
    ensures { let m = R.modulus r.now in IsTrue result ↔ Suits m (R.value m (T.number g.now)) n }
{
    if !n.is_power_of_two() {
        return false;
    }
    if n == 1 {
        return true;
    }
    let mut power = *g;
    'squares: for _done in 1..n.trailing_zeros() {
        power = r.sqr(power);
    }
    let one = r.transform(T::one());
    r.is_zero(&r.add(&power, &one))
}

/// [`ntt`], and the number of products: n·z/2 + n - 1 + z for n = 2^z.
///
/// The z stages have half blocks of n/2, n/4, .., 1 entries. A stage takes a product for each of its n/2 pairs, a
/// product for the power of each column, and a square for the root of the next stage.
///
/// # Conditions
///
/// - the length is a power of two
/// - g suits the length ([`root_fits`] tells)
/// - (debug) g and the entries are checked forms
///
/// # Examples
///
/// ```
/// use num_modular::ring::ntt_counted;
/// use num_modular::{Reducer, Vanilla};
///
/// let ring = Vanilla::<u64>::new(&17);
/// let mut forms = [1, 2, 3, 4];
/// assert_eq!(ntt_counted(&ring, &mut forms, &4), 4 * 2 / 2 + 4 - 1 + 2);
/// assert_eq!(forms, [10, 7, 15, 6]);
/// ```
// rust: #[track_caller]
pub fn ntt_counted<T: RingWord, R: Reducer<T>>(r: &R, xs: &mut [T], g: &T) -> u128
    requires checked { AreChecked R.Reducer T.number r.now xs.old }
    requires root { IsChecked R.Reducer T.number r.now g.now }
    requires suits { let m = R.modulus r.now in Suits m (R.value m (T.number g.now)) (length xs.old) }
    ensures entries { let m = R.modulus r.now in
        HoldValues T.number R.form m xs.new
        (transform m (R.value m (T.number g.now)) (length xs.old) (slice_index (values_of T.number R.value m xs.old))) }
    ensures values { let m = R.modulus r.now in
        (j : ℕ) → j < length xs.old → slice_index (values_of T.number R.value m xs.new) j
        ≡ transform m (R.value m (T.number g.now)) (length xs.old)
        (slice_index (values_of T.number R.value m xs.old)) j }
    ensures checked { AreChecked R.Reducer T.number r.now xs.new }
    ensures count { (z : ℕ) → length xs.old ≡ 2 ^ z → result ≡ length xs.old * z / 2 + length xs.old - 1 + z }
{
    // rust: assert!(xs.len().is_power_of_two(), "the length must be a power of two: {}", xs.len());
    // rust: debug_assert!(r.check(g) && xs.iter().all(|x| r.check(x)), "g and the entries must be checked forms");
    // rust: assert!(r.check(g) && root_fits(r, g, xs.len()), "g must suit the length: n = {}, m = {}, g = {}", xs.len(),
    // rust:     crate::additions::number(r.modulus()), crate::additions::number(r.residue(*g)));
    let stages = xs.len().trailing_zeros();
    let mut roots = [*g; 64];
    let mut root = *g;
    let mut products = 0;
    'roots: for i in 0..stages as usize {
        roots[i] = root;
        root = r.sqr(root);
        products += 1;
    }
    let mut half = xs.len() / 2;
    let mut blocks = 1;
    let mut done = 0;
    if stages % 2 == 1 {
        products += first_stage(r, xs, half, g) as u128;
        half /= 2;
        blocks = 2;
        done = 1;
    }
    'passes: while done < stages as usize {
        let (root, square) = (roots[done], roots[done + 1]);
        let turned = roots[stages as usize - 2];
        products += two_stages(r, xs, half / 2, blocks, &root, &square, &turned);
        half /= 4;
        blocks *= 4;
        done += 2;
    }
    reverse_places(xs, stages);
    products
}

/// Replaces xs by its transform by g: entry j becomes the form of the sum of x_i·g^(i·j) modulo m, x_i being the value
/// of entry i.
///
/// The modulus needn't be prime. No memory is allocated.
///
/// Source: the decimation in frequency of Gentleman and Sande, "Fast Fourier transforms: for fun and profit", over
/// residues: Pollard, "The fast Fourier transform in a finite field".
///
/// # Conditions
///
/// - the length is a power of two
/// - g suits the length ([`root_fits`] tells)
/// - (debug) g and the entries are checked forms
///
/// # Examples
///
/// ```
/// use num_modular::ring::{find_root, ntt};
/// use num_modular::{FixedProth64, Reducer};
///
/// type Ring = FixedProth64<57, 29>;
/// let ring = Ring::new(&Ring::MODULUS);
/// let root = find_root(&ring, 4).unwrap();
/// let mut forms = [1, 2, 3, 4].map(|x| ring.transform(x));
/// ntt(&ring, &mut forms, &root);
/// assert_eq!(ring.residue(forms[0]), 10);
/// ```
// rust: #[track_caller]
pub fn ntt<T: RingWord, R: Reducer<T>>(r: &R, xs: &mut [T], g: &T)
    requires checked { AreChecked R.Reducer T.number r.now xs.old }
    requires root { IsChecked R.Reducer T.number r.now g.now }
    requires suits { let m = R.modulus r.now in Suits m (R.value m (T.number g.now)) (length xs.old) }
    ensures entries { let m = R.modulus r.now in
        HoldValues T.number R.form m xs.new
        (transform m (R.value m (T.number g.now)) (length xs.old) (slice_index (values_of T.number R.value m xs.old))) }
    ensures values { let m = R.modulus r.now in
        (j : ℕ) → j < length xs.old → slice_index (values_of T.number R.value m xs.new) j
        ≡ transform m (R.value m (T.number g.now)) (length xs.old)
        (slice_index (values_of T.number R.value m xs.old)) j }
    ensures checked { AreChecked R.Reducer T.number r.now xs.new }
{
    let _products = ntt_counted(r, xs, g);
}
