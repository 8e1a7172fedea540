//! Two stages of a transform in one pass, which loads and stores each entry once.

ghost use Rattle.std.specs.Prelude.{◌≡◌, ◌+◌, ◌*◌, ◌^◌, ◌<◌, ◌≤◌, length, slice_index};
ghost use Rattle.modular_word.specs.Congruence.{Congruent};
ghost use Rattle.modular_reduced.specs.Checked.{AreChecked, IsChecked};
ghost use Rattle.modular_reduced.specs.Values.{values_of};
ghost use Rattle.modular_transform.specs.Stages.{ArePowers, FourDone, IsTwoStages};

use modular_reduced::reducer::Reducer;
use modular_word::ring_word::RingWord;

// The number of columns of a strip. Their powers are kept on the stack, and in each block their entries are
// neighbours in memory.
const STRIP: usize = 64;

// The powers of a column: of its pairs two steps apart, and of its pairs one step apart.
// rattle: line
#[derive(Drop)]
// rust instead: struct Column<T> {
struct Column<T: RingWord> {
    first: T,
    second: T,
    both: T,
}

// Two stages of a column of a block, `step` being the number of its columns: first the pairs two steps apart, then the
// pairs one step apart. It takes four products.
#[inline(always)]
fn four<T: RingWord, R: Reducer<T>>(
    r: &R,
    forms: &mut [T],
    step: usize,
    block: usize,
    index: usize,
    column: &Column<T>,
)
    requires checked { AreChecked R.Reducer T.number r.now forms.old }
    requires powers { ArePowers R.form R.value (R.modulus r.now) (T.number column.now.first)
        (T.number column.now.second) (T.number column.now.both) }
    requires within { (index < step) × ((block + 1) * (4 * step) ≤ length forms.old) }
    ensures checked { AreChecked R.Reducer T.number r.now forms.new }
    ensures done { let m = R.modulus r.now in
        FourDone m (R.value m (T.number column.now.first)) (R.value m (T.number column.now.second))
        (R.value m (T.number column.now.both)) step (block * (4 * step) + index)
        (slice_index (values_of T.number R.value m forms.old))
        (slice_index (values_of T.number R.value m forms.new)) }
{
    let place = block * (4 * step) + index;
    let (second_place, third_place, fourth_place) = (
        place + step,
        place + 2 * step,
        place + 3 * step,
    );
    let a = forms[place];
    let b = forms[second_place];
    let c = forms[third_place];
    let d = forms[fourth_place];
    let left = r.add(&a, &c);
    let right = r.add(&b, &d);
    let left_turned = r.mul_difference(&a, &c, &column.first);
    let right_turned = r.mul_difference(&b, &d, &column.second);
    forms[place] = r.add(&left, &right);
    forms[second_place] = r.mul_difference(&left, &right, &column.both);
    forms[third_place] = r.add(&left_turned, &right_turned);
    forms[fourth_place] = r.mul_difference(&left_turned, &right_turned, &column.both);
}

/// Two stages, the first with a root and 2·step columns, the second with its square and `step` columns.
///
/// `turned` is the power `step` of the root. Returns the number of products.
///
/// The columns are processed in strips, so that consecutive accesses are close in memory.
///
/// # Preconditions
///
/// - entries, root, square and `turned` are checked forms
/// - `turned` is that power
/// - there are 4·step·blocks entries, in one block or more
#[tactic(auto, using(crate::proofs::FourLemmas::block_places_within_length))]
pub fn two_stages<T: RingWord, R: Reducer<T>>(
    r: &R,
    forms: &mut [T],
    step: usize,
    blocks: usize,
    root: &T,
    square: &T,
    turned: &T,
) -> u128
    requires checked { AreChecked R.Reducer T.number r.now forms.old }
    requires root { IsChecked R.Reducer T.number r.now root.now }
    requires square { IsChecked R.Reducer T.number r.now square.now }
    requires turned { IsChecked R.Reducer T.number r.now turned.now }
    requires turn { let m = R.modulus r.now in
        Congruent m (R.value m (T.number turned.now)) (R.value m (T.number root.now) ^ step) }
    requires whole { blocks * (4 * step) ≡ length forms.old }
    requires some { 0 < blocks }
    ensures checked { AreChecked R.Reducer T.number r.now forms.new }
    ensures stages { let m = R.modulus r.now in
        IsTwoStages m (R.value m (T.number root.now)) (R.value m (T.number square.now)) step blocks
        (slice_index (values_of T.number R.value m forms.old)) (slice_index (values_of T.number R.value m forms.new)) }
    ensures count { result ≡ step * (4 * blocks + 3) }
{
    let one = r.transform(T::one());
    let mut column = Column {
        first: one,
        second: *turned,
        both: one,
    };
    let mut firsts = [one; STRIP];
    let mut seconds = [one; STRIP];
    let mut boths = [one; STRIP];
    let mut start = 0;
    let mut products = 0;
    'strips: while start < step {
        let width = STRIP.min(step - start);
        'fill: for i in 0..width {
            firsts[i] = column.first;
            seconds[i] = column.second;
            boths[i] = column.both;
            column = Column {
                first: r.mul(&column.first, root),
                second: r.mul(&column.second, root),
                both: r.mul(&column.both, square),
            };
            products += 3;
        }
        'each_block: for block in 0..blocks {
            'columns: for k in 0..width {
                let column = Column {
                    first: firsts[k],
                    second: seconds[k],
                    both: boths[k],
                };
                four(r, forms, step, block, start + k, &column);
                products += 4;
            }
        }
        start += width;
    }
    products
}
