//! The distance of the codes, and Singleton's bound.

ghost use Rattle.std.specs.Prelude.{◌≡◌, ◌≢◌, ℕ, ◌+◌, ◌-◌, ◌%◌, ◌^◌, ◌<◌, ◌≤◌};
ghost use Rattle.num_modular.specs.Polynomials.{HaveUnitDifferences};
ghost use Rattle.ring_codes.specs.Erasure.{IsEncoding, IsErasureCodeword, distance};

/// A law, Singleton's bound: for any code, words of n symbols below m, any two of which differ in at least d places,
/// where 1 ≤ d ≤ n, are at most m^(n - d + 1).
///
/// A code that meets the bound is called maximum distance separable (MDS). Reed and Solomon's is one: it has m^k words,
/// and d = n - k + 1 (`distance_laws`).
///
/// Source: Singleton, "Maximum distance q-nary codes".
pub fn singleton_law()
    ensures { (m n d size : ℕ) (words : ℕ → ℕ → ℕ) → 1 ≤ d → d ≤ n →
        ((a i : ℕ) → a < size → i < n → words a i < m) →
        ((a b : ℕ) → a < size → b < size → a ≢ b → d ≤ distance n (words a) (words b)) →
        size ≤ m ^ (n - d + 1) }
{}

/// A law, the distance of words: those of two messages of k symbols that differ modulo m differ in at least n - k + 1
/// of n symbols, and so do two different words. So changing at most n - k symbols of a word never gives a word. The
/// bound is met: if k is at least 1 and m at least 2, the words of some two such messages differ in exactly n - k + 1
/// symbols, for example those of (X - p_1)·..·(X - p_(k-1)) and of 0.
///
/// Source: Reed and Solomon, "Polynomial codes over certain finite fields"; Singleton, "Maximum distance
/// q-nary codes".
#[tactic(auto, using(crate::proofs::Distances::messages_apart, crate::proofs::Distances::words_apart, crate::proofs::Singleton::bound_met))]
pub fn distance_laws()
    ensures messages { (m k n : ℕ) (points a b u v : ℕ → ℕ) → k ≤ n → HaveUnitDifferences m n points →
        IsEncoding m k n points a u → IsEncoding m k n points b v →
        (i : ℕ) → i < k → a i % m ≢ b i % m → n - k + 1 ≤ distance n u v }
    ensures words { (m k n : ℕ) (points u v : ℕ → ℕ) → k ≤ n → HaveUnitDifferences m n points →
        IsErasureCodeword m k n points u → IsErasureCodeword m k n points v → 0 < distance n u v →
        n - k + 1 ≤ distance n u v }
    ensures change { (m k n : ℕ) (points word changed : ℕ → ℕ) → k ≤ n → HaveUnitDifferences m n points →
        IsErasureCodeword m k n points word → 0 < distance n word changed → distance n word changed ≤ n - k →
        IsErasureCodeword m k n points changed → ⊥ }
    ensures met { (m k n : ℕ) (points : ℕ → ℕ) → 2 ≤ m → 1 ≤ k → k ≤ n → HaveUnitDifferences m n points →
        (a : ℕ → ℕ) × (b : ℕ → ℕ) × (u : ℕ → ℕ) × (v : ℕ → ℕ) × IsEncoding m k n points a u ×
        IsEncoding m k n points b v × ((i : ℕ) × (i < k) × (a i % m ≢ b i % m)) × (distance n u v ≡ n - k + 1) }
{}
