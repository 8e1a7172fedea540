//! All laws that a proof may cite, as contracts of functions that do nothing: to use a law, call the function in
//! the body and cite its clauses.
//!
//! The functions of the ring laws (`sums_commute` and the like) return both sides of a law; their contracts say
//! that the sides are equal. `run_both` runs one list over two reducers.

ghost use Rattle.std.specs.Prelude.{◌≡◌, ◌≢◌, ℕ, suc, ◌+◌, ◌-◌, ◌*◌, ◌/◌, ◌%◌, ◌^◌, ◌<◌};
ghost use Rattle.std.specs.Prelude.{◌≤◌, ◌↔◌, pos, ◌-ℤ◌, List, All, None, length, map, slice_index};
ghost use Rattle.modular_reduced.specs.Checked.{AreChecked};
ghost use Rattle.modular_reduced.specs.Forms.{IsForm};
ghost use Rattle.modular_word.specs.Inverses.{IsInverse, HasInverse};
ghost use Rattle.modular_word.specs.Residues.{residue};
ghost use Rattle.modular_word.specs.Sums.{sum_below};
ghost use Rattle.modular_symbols.specs.Primes.{IsPrime};
ghost use Rattle.modular_transform.specs.Orders.{bits_reversed};
ghost use Rattle.modular_transform.specs.Transforms.{cyclic_product, transform};
ghost use Rattle.modular_plan_passes.specs.Plans.{AreRemainders};
ghost use Rattle.num_modular.specs.Polynomials.{polynomial_at, polynomial_highest_first, HaveUnitDifferences};
ghost use Rattle.modular_ring.specs.Products.{product_below};
ghost use Rattle.modular_ring.specs.Ring.{whole, value_at, inverted_by, IsStop, carried_out, IsFit, values_of, HoldValues};
ghost use Rattle.num_modular.specs.Stops.{NeedsInverse};

// rust instead: use crate::commands::{AsCommand, RunEnd, run};
use crate::commands::{AsCommand, RingCommand, RunEnd, run};
use modular_reduced::reducer::Reducer;
use modular_word::ring_word::RingWord;

// Whole numbers.
pub use modular_word::laws::{
    base_laws, congruence_laws, divisor_laws, euclids_lemma, inverse_laws, linear_congruence_laws,
    power_laws, range_laws, remainder_laws, residue_laws, sum_laws,
};

// How many steps a call takes.
pub use modular_prim::euclid::division_laws;
pub use modular_reduced::power::digit_laws;
pub use modular_symbols::halving::step_laws;

// Forms and rings.
pub use modular_folds::folds::fold_laws;
pub use modular_monty::montgomery::form_laws;
pub use modular_reduced::laws::{
    canonical_laws, is_equivalence, negative_cancels, products_associate, products_commute,
    products_distribute, residue_by_form, same_value, sums_associate, sums_commute,
};

// Transforms.
pub use modular_transform::laws::{product_laws, transform_laws};

// Symbols and primes.
pub use modular_symbols::laws::{jacobi_laws, prime_laws};

/// Where a run stops: this depends on the inverses that its commands need.
///
/// A list of commands that needs none has no stop. A missing inverse is the stop where none is missing before it. Where
/// there is no stop, that is, where the run is done, each inverse exists.
pub fn stop_laws<T: RingWord>()
    ensures none { (m : ℕ) (start : List ℕ) (commands : List (RingCommand T)) (at : ℕ) →
        All (λ command. inverted_by command ≡ None) commands →
        IsStop m start (map (whole T.number) commands) at → ⊥ }
    ensures first { (m : ℕ) (start : List ℕ) (commands : List (RingCommand T)) (at r : ℕ) →
        let wholes = map (whole T.number) commands in
        NeedsInverse commands at r → (HasInverse m (value_at m start wholes at r) → ⊥) →
        ((i q : ℕ) → i < at → NeedsInverse commands i q → HasInverse m (value_at m start wholes i q)) →
        IsStop m start wholes at }
    ensures each { (m : ℕ) (start : List ℕ) (commands : List (RingCommand T)) →
        let wholes = map (whole T.number) commands in
        ((at : ℕ) → IsStop m start wholes at → ⊥) →
        (i r : ℕ) → NeedsInverse commands i r → HasInverse m (value_at m start wholes i r) }
{}

/// Runs the same commands over two reducers: it returns both ends.
///
/// They are equal, and the registers then have equal residues, whatever the forms, the words and the types of the
/// commands are.
///
/// # Preconditions
///
/// - the moduli are equal, the registers hold checked forms of equal residues, the lists are equal as commands on
///   whole numbers, and each register number is below the count
pub fn run_both<
    T: RingWord,
    U: RingWord,
    R: Reducer<T>,
    S: Reducer<U>,
    C: AsCommand<T>,
    D: AsCommand<U>,
>(
    left: &R,
    right: &S,
    left_regs: &mut [T],
    right_regs: &mut [U],
    left_commands: &[C],
    right_commands: &[D],
) -> (RunEnd, RunEnd)
    requires left_checked { AreChecked R.Reducer T.number left.now left_regs.old }
    requires right_checked { All (λ f. IsForm S.form S.value (S.modulus right.now) (U.number f)) right_regs.old }
    requires left_fit { All (λ c. IsFit (length left_regs.old) (C.command c)) left_commands.now }
    requires right_fit { All (λ c. IsFit (length right_regs.old) (D.command c)) right_commands.now }
    requires one_modulus { R.modulus left.now ≡ S.modulus right.now }
    requires one_start { values_of T.number R.value (R.modulus left.now) left_regs.old
        ≡ values_of U.number S.value (S.modulus right.now) right_regs.old }
    requires one_list { map (λ c. whole T.number (C.command c)) left_commands.now
        ≡ map (λ c. whole U.number (D.command c)) right_commands.now }

    // The left run satisfies the contract of `run`.
    ensures stops { let m = R.modulus left.now in
        let start = values_of T.number R.value m left_regs.old in
        let wholes = map (λ c. whole T.number (C.command c)) left_commands.now in
        (at : ℕ) → (result.0 ≡ RunEnd.NoInverse at) ↔ IsStop m start wholes at }
    ensures done { let m = R.modulus left.now in
        let start = values_of T.number R.value m left_regs.old in
        let wholes = map (λ c. whole T.number (C.command c)) left_commands.now in
        (result.0 ≡ RunEnd.Done) ↔ ((at : ℕ) → IsStop m start wholes at → ⊥) }
    ensures left_values { let m = R.modulus left.now in
        let start = values_of T.number R.value m left_regs.old in
        let wholes = map (λ c. whole T.number (C.command c)) left_commands.now in
        HoldValues T.number R.form m left_regs.new (value_at m start wholes (carried_out result.0 wholes)) }

    // The right run ends at the same command, with checked forms of the same residues.
    ensures one_end { result.0 ≡ result.1 }
    ensures right_checked { All (λ f. IsForm S.form S.value (S.modulus right.now) (U.number f)) right_regs.new }
    ensures one_result { values_of T.number R.value (R.modulus left.now) left_regs.new
        ≡ values_of U.number S.value (S.modulus right.now) right_regs.new }
{
    let left_end = run(left, left_regs, left_commands);
    let right_end = run(right, right_regs, right_commands);
    (left_end, right_end)
}

// In the shape in which contracts of calls and loop invariants leave their terms.

/// Quotients and differences undo: a quotient, computed by [`inv`] and `mul`, times its divisor is congruent to the
/// dividend.
///
/// A difference plus its subtrahend is congruent to the minuend.
///
/// Source: Gauss, Disquisitiones Arithmeticae, articles 1 to 8 and 31.
#[tactic(auto, using(crate::proofs::Calls::difference_plus_subtrahend_is_minuend, crate::proofs::Calls::quotient_times, crate::proofs::Calls::quotient_times_below))]
pub fn undoing_laws()
    ensures quotient { (m a b x : ℕ) → IsInverse m b x → ((a * x) % m * b) % m ≡ a % m }
    ensures quotient_below { (m a b x : ℕ) → IsInverse m b x → a < m → ((a * x) % m * b) % m ≡ a }
    ensures difference_below { (m a b : ℕ) → a < m → (residue m (pos a -ℤ pos b) + b) % m ≡ a }
{}

/// Equal and bounded sums: sums over a range are equal where their terms are.
///
/// Where only one term isn't 0, the sum is that term. Trailing terms of 0 may be dropped. A sum of n terms that are at
/// most b is at most n·b.
///
/// Source: Graham, Knuth and Patashnik, Concrete Mathematics, chapter 2.
pub fn sum_below_laws()
    ensures same { (n : ℕ) (f g : ℕ → ℕ) → ((i : ℕ) → i < n → f i ≡ g i) → sum_below n f ≡ sum_below n g }
    ensures single { (n k : ℕ) (f : ℕ → ℕ) → k < n → ((i : ℕ) → i < n → i ≢ k → f i ≡ 0) → sum_below n f ≡ f k }
    ensures tail { (n d : ℕ) (f : ℕ → ℕ) → ((i : ℕ) → n ≤ i → i < n + d → f i ≡ 0)
        → sum_below (n + d) f ≡ sum_below n f }
    ensures bound { (n b : ℕ) (f : ℕ → ℕ) → ((i : ℕ) → i < n → f i ≤ b) → sum_below n f ≤ n * b }
{}

/// Products over ranges: an empty product is 1, and extending a range by one adds one factor.
///
/// Products are equal where their factors are.
///
/// Source: Graham, Knuth and Patashnik, Concrete Mathematics, section 2.1.
pub fn product_below_laws()
    ensures none { (f : ℕ → ℕ) → product_below 0 f ≡ 1 }
    ensures more { (f : ℕ → ℕ) (n : ℕ) → product_below (n + 1) f ≡ product_below n f * f n }
    ensures same { (n : ℕ) (f g : ℕ → ℕ) → ((i : ℕ) → i < n → f i ≡ g i) → product_below n f ≡ product_below n g }
{}

/// Inverses of products: a product has one exactly where both factors have, and a product over a range exactly where
/// each factor has.
///
/// An inverse of a·b times b is an inverse of a, and times a it is one of b; the product of the factors' inverses is an
/// inverse of the product. Over a range, an inverse of the product, times the last factor, is an inverse of the product
/// of the others; times the residue of that product, it is an inverse of the last factor.
///
/// Source: Gauss, Disquisitiones Arithmeticae, articles 29 and 31; for a range, Montgomery, "Speeding the
/// Pollard and elliptic curve methods of factorization", section 10.3.1.
pub fn inverse_product_laws()
    ensures both { (m a b : ℕ) → HasInverse m (a * b) ↔ (HasInverse m a × HasInverse m b) }
    ensures left { (m a b x : ℕ) → IsInverse m (a * b) x → IsInverse m a ((x * b) % m) }
    ensures right { (m a b x : ℕ) → IsInverse m (a * b) x → IsInverse m b ((x * a) % m) }
    ensures product { (m a b x y : ℕ) → IsInverse m a x → IsInverse m b y → IsInverse m (a * b) ((x * y) % m) }
    ensures before { (m i j b w x : ℕ) (f : ℕ → ℕ) → IsInverse m (product_below j f) x → j ≡ i + 1 →
        w ≡ (x * b) % m → b ≡ f i → IsInverse m (product_below i f) w }
    ensures last { (m i j b w x : ℕ) (f : ℕ → ℕ) → IsInverse m (product_below j f) x → j ≡ i + 1 →
        w ≡ (x * b) % m → b ≡ product_below i f % m → IsInverse m (f i) w }
    ensures each { (m n : ℕ) (f : ℕ → ℕ) → 0 < m →
        HasInverse m (product_below n f) ↔ ((i : ℕ) → i < n → HasInverse m (f i)) }
{}

/// Powers modulo a prime: modulo p, a^p is congruent to a (Fermat's theorem).
///
/// Modulo an odd prime, a^((p - 1)/2) is congruent to 1 exactly where a is congruent to the square of a number that p
/// doesn't divide (Euler's criterion). Where p is 3 modulo 4, a^((p + 1)/4) is a square root of each a that is
/// congruent to a square.
///
/// Source: Hardy and Wright, "An Introduction to the Theory of Numbers", theorems 70 and 83; for the root
/// Cohen, "A Course in Computational Algebraic Number Theory", section 1.5.1.
pub fn prime_power_laws()
    ensures fermat { (a p : ℕ) → IsPrime p → a ^ p % p ≡ a % p }
    ensures euler { (a p : ℕ) → p % 2 ≡ 1 → IsPrime p →
        (a ^ ((p - 1) / 2) % p ≡ 1) ↔ ((x : ℕ) × (x % p ≡ 0 → ⊥) × ((x * x) % p ≡ a % p)) }
    ensures root { (a p x : ℕ) → p % 4 ≡ 3 → IsPrime p → (x * x) % p ≡ a % p →
        (a ^ ((p + 1) / 4) * a ^ ((p + 1) / 4)) % p ≡ a % p }
{}

/// Products of polynomials by coefficients: the cyclic product multiplies without wrapping around.
///
/// Where x_i·y_j is 0 for all i + j that are at least n, and the modulus is above every sum, entry e is the sum of
/// x_i·y_(e-i) for i from 0 to e. The same holds where the values are the residues of two lists, as after
/// [`load_forms`], whose lengths add up to at most n + 1.
///
/// Source: Knuth, The Art of Computer Programming, volume 2, section 4.3.3, part C.
pub fn coefficient_laws()
    ensures values { (m n s t e : ℕ) (x y : ℕ → ℕ) →
        ((i : ℕ) → i < n → x i ≤ s) → ((j : ℕ) → j < n → y j ≤ t) → n * (s * t) < m →
        ((i j : ℕ) → i < n → j < n → n ≤ i + j → x i * y j ≡ 0) → e < n →
        cyclic_product m n x y e ≡ sum_below (e + 1) (λ i. x i * y (e - i)) }
    ensures lists { (m n s t e : ℕ) (xs ys : List ℕ) (x y : ℕ → ℕ) →
        ((i : ℕ) → i < n → x i ≡ slice_index xs i % m) → ((j : ℕ) → j < n → y j ≡ slice_index ys j % m) →
        ((i : ℕ) → slice_index xs i ≤ s) → ((j : ℕ) → slice_index ys j ≤ t) → s < m → t < m → n * (s * t) < m →
        length xs + length ys ≤ n + 1 → e < n →
        cyclic_product m n x y e ≡ sum_below (e + 1) (λ i. slice_index xs i * slice_index ys (e - i)) }
{}

/// The order by `split`: its remainders with b = 0 and last = 1 are the transform in bit-reversed order, by the root g
/// of a table for as many entries, or where it is for 2^d times as many by the power of g that suits them.
///
/// By a table for as many, a list in that order is the remainders, as `join` requires them.
///
/// Source: Cooley and Tukey, "An algorithm for the machine calculation of complex Fourier series"; Knuth, The Art of
/// Computer Programming, volume 2, section 4.6.4.
pub fn split_laws()
    ensures transform { (m g bits n j : ℕ) (x y : ℕ → ℕ) → n ≡ 2 ^ bits → AreRemainders m g bits 0 n 1 x y →
        j < n → y j ≡ transform m g n x (bits_reversed bits j) }
    ensures shorter { (m g d bits n j : ℕ) (x y : ℕ → ℕ) → n ≡ 2 ^ bits → AreRemainders m g (bits + d) 0 n 1 x y →
        j < n → y j ≡ transform m (g ^ (2 ^ d)) n x (bits_reversed bits j) }
    ensures remainders { (m g bits n : ℕ) (x y : ℕ → ℕ) → n ≡ 2 ^ bits →
        ((j : ℕ) → j < n → y j ≡ transform m g n x (bits_reversed bits j)) → AreRemainders m g bits 0 n 1 x y }
{}

/// Polynomials modulo m: Horner's rule for one by its coefficients, the constant first, and the same polynomial by
/// these in reverse.
///
/// Modulo m, which may be composite, a polynomial with at most n coefficients that is 0 at n points whose differences
/// all have inverses has only coefficients of 0. So two of them with equal values at the points have equal
/// coefficients, as lists, as functions, and with the highest coefficient first. Modulo a prime, differences of
/// distinct residues have inverses.
///
/// Source: Knuth, The Art of Computer Programming, volume 2, section 4.6.4 (Newton's form).
pub fn polynomial_laws()
    ensures none { (c : ℕ → ℕ) (x : ℕ) → polynomial_at 0 c x ≡ 0 }
    ensures first { (n : ℕ) (c : ℕ → ℕ) (x : ℕ) →
        polynomial_at (suc n) c x ≡ c 0 + x * polynomial_at n (λ i. c (suc i)) x }
    ensures reversed { (n : ℕ) (c : ℕ → ℕ) (x : ℕ) →
        polynomial_highest_first n c x ≡ polynomial_at n (λ i. c (n - 1 - i)) x }
    ensures zero { (m : ℕ) (cs points : List ℕ) →
        HaveUnitDifferences m (length points) (λ i. slice_index points i) → length cs ≤ length points →
        ((i : ℕ) → i < length points → polynomial_at (length cs) (slice_index cs) (slice_index points i) % m ≡ 0) →
        (i : ℕ) → i < length cs → slice_index cs i % m ≡ 0 }
    ensures lists { (m : ℕ) (cs ds points : List ℕ) →
        HaveUnitDifferences m (length points) (λ i. slice_index points i) →
        length cs ≤ length points → length ds ≤ length points →
        ((i : ℕ) → i < length points →
        polynomial_at (length cs) (slice_index cs) (slice_index points i) % m ≡
        polynomial_at (length ds) (slice_index ds) (slice_index points i) % m) →
        (i : ℕ) → i < length points → slice_index cs i % m ≡ slice_index ds i % m }
    ensures values { (m n : ℕ) (c d x : ℕ → ℕ) → HaveUnitDifferences m n x →
        ((i : ℕ) → i < n → polynomial_at n c (x i) % m ≡ polynomial_at n d (x i) % m) →
        (i : ℕ) → i < n → c i % m ≡ d i % m }
    ensures descending { (m n : ℕ) (c d x : ℕ → ℕ) → HaveUnitDifferences m n x →
        ((i : ℕ) → i < n → polynomial_highest_first n c (x i) % m ≡ polynomial_highest_first n d (x i) % m) →
        (i : ℕ) → i < n → c i % m ≡ d i % m }
    ensures prime { (p n : ℕ) (x : ℕ → ℕ) → IsPrime p →
        ((i j : ℕ) → i < n → j < n → i ≢ j → x i % p ≢ x j % p) → HaveUnitDifferences p n x }
{}
