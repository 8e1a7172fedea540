//! Places of lost symbols.

ghost use Rattle.std.specs.Prelude.{◌≡◌, ℕ, ◌+◌, ◌*◌, ◌%◌, ◌<◌, ◌≤◌, MatchResult, length, slice_index};
ghost use Rattle.num_modular.specs.Entries.{entry};
ghost use Rattle.num_modular.specs.Checked.{AreChecked};
ghost use Rattle.ring_codes.specs.Erasure.{ArePlaces};
ghost use Rattle.ring_erasures.specs.Erasures.{AreErased, AreKeptProducts, IsErasureFault, IsScattered};

use num_modular::{Reducer, RingWord};
use ring_codes::erasure::RestoreError;

// Whether the lost places are right: what is wrong first, otherwise. There is a mark for each symbol, to be overwritten.
pub fn check_places<T: RingWord>(
    k: usize,
    lost: &[usize],
    marks: &mut [T],
) -> Result<(), RestoreError>
    ensures { (m g : ℕ) → MatchResult result (λ _. AreErased k (length marks.old) lost.now)
        (λ e. IsErasureFault m g k (length marks.old) lost.now e) }
{
    if k > marks.len() || lost.len() > marks.len() - k {
        return Err(RestoreError::TooFewSymbols);
    }
    'marks: for i in 0..marks.len() {
        marks[i] = T::zero();
    }
    'places: for i in 0..lost.len() {
        let place = lost[i];
        if place >= marks.len() {
            return Err(RestoreError::PlaceOutOfRange);
        }
        if !marks[place].is_zero_word() {
            return Err(RestoreError::PlaceTwice);
        }
        marks[place] = T::one();
    }
    Ok(())
}

// Copies the numbers at the lost places.
#[tactic(auto, using(num_modular::specs::Callers::held_entry))]
pub fn gather<T: RingWord, R: Reducer<T>>(_r: &R, lost: &[usize], list: &[T], numbers: &mut [T])
    requires list { AreChecked R.Reducer T.number _r.now list.now }
    requires within { (l : ℕ) → l < length lost.now → slice_index lost.now l < length list.now }
    requires room { length numbers.old ≡ length lost.now }
    ensures checked { AreChecked R.Reducer T.number _r.now numbers.new }
    ensures same { let m = R.modulus _r.now in (l : ℕ) → l < length lost.now →
        entry T.number R.value m numbers.new l ≡ entry T.number R.value m list.now (slice_index lost.now l) }
{
    'places: for l in 0..lost.len() {
        numbers[l] = list[lost[l]];
    }
}

// Writes the numbers to the lost places.
#[tactic(auto, using(crate::proofs::ErasedPlaces::scattered_none))]
pub fn scatter<T: RingWord, R: Reducer<T>>(_r: &R, lost: &[usize], numbers: &[T], list: &mut [T])
    requires numbers { AreChecked R.Reducer T.number _r.now numbers.now }
    requires list { AreChecked R.Reducer T.number _r.now list.old }
    requires each { length numbers.now ≡ length lost.now }
    requires places { ArePlaces (length lost.now) (length list.old) lost.now }
    ensures checked { AreChecked R.Reducer T.number _r.now list.new }
    ensures there { let entries = entry T.number R.value (R.modulus _r.now) in
        IsScattered (length lost.now) lost.now (entries numbers.now) (entries list.old) (entries list.new) }
{
    'places: for l in 0..lost.len() {
        list[lost[l]] = numbers[l];
    }
}

// Writes to the lost places the products of the values and the factors there.
#[tactic(auto, using(crate::proofs::ErasedPlaces::scattered_none))]
pub fn write_products<T: RingWord, R: Reducer<T>>(
    r: &R,
    lost: &[usize],
    values: &[T],
    factors: &[T],
    word: &mut [T],
)
    requires values { AreChecked R.Reducer T.number r.now values.now }
    requires factors { AreChecked R.Reducer T.number r.now factors.now }
    requires word { AreChecked R.Reducer T.number r.now word.old }
    requires each_value { length values.now ≡ length word.old }
    requires each_factor { length factors.now ≡ length word.old }
    requires places { ArePlaces (length lost.now) (length word.old) lost.now }
    ensures checked { AreChecked R.Reducer T.number r.now word.new }
    ensures there { let m = R.modulus r.now in let entries = entry T.number R.value m in
        IsScattered (length lost.now) lost.now (λ l. (entries values.now (slice_index lost.now l)
        * entries factors.now (slice_index lost.now l)) % m) (entries word.old) (entries word.new) }
{
    'places: for l in 0..lost.len() {
        let place = lost[l];
        word[place] = r.mul(&values[place], &factors[place]);
    }
}

// Writes the products of the symbols and their factors, and 0 at the lost places.
#[tactic(auto, using(crate::proofs::ErasedPlaces::scattered_none, num_modular::specs::Callers::held_forms))]
pub fn multiply_kept<T: RingWord, R: Reducer<T>>(
    r: &R,
    lost: &[usize],
    word: &[T],
    factors: &[T],
    products: &mut [T],
)
    requires word { AreChecked R.Reducer T.number r.now word.now }
    requires factors { AreChecked R.Reducer T.number r.now factors.now }
    requires each_symbol { length word.now ≡ length products.old }
    requires each_factor { length factors.now ≡ length products.old }
    requires places { ArePlaces (length lost.now) (length products.old) lost.now }
    ensures checked { AreChecked R.Reducer T.number r.now products.new }
    ensures products { let m = R.modulus r.now in AreKeptProducts m (length products.old) lost.now
        (entry T.number R.value m word.now) (entry T.number R.value m factors.now)
        (entry T.number R.value m products.new) }
{
    'symbols: for i in 0..products.len() {
        products[i] = r.mul(&word[i], &factors[i]);
    }
    let zero = r.transform(T::zero());
    'places: for l in 0..lost.len() {
        products[lost[l]] = zero;
    }
}
