//! Laws of transforms and cyclic products. Each is a contract of a function with an empty body; to use a law, call
//! the function and cite its clauses.

ghost use Rattle.std.specs.Prelude.{◌≡◌, ℕ, ◌+◌, ◌*◌, ◌%◌, ◌^◌, ◌<◌, ◌≤◌};
ghost use Rattle.std.specs.Int.{IsPowerOfTwo};
ghost use Rattle.modular_word.specs.Congruence.{Congruent};
ghost use Rattle.modular_word.specs.Inverses.{IsInverse};
ghost use Rattle.modular_word.specs.Sums.{sum_below};
ghost use Rattle.modular_transform.specs.Transforms.{Suits, transform, cyclic_product};

/// Roots and inverse transforms: the inverse of a root that suits n entries suits n entries, and the power g^k of a
/// root g that suits n·k entries suits n.
///
/// Congruent values have the same transform. The transform by the inverse of g, applied to the transform by g, gives n
/// times the values; times an inverse of n, it gives the values.
///
/// Source: Pollard, "The fast Fourier transform in a finite field", section 2.
#[tactic(auto, using(crate::proofs::InverseTransform::inverse_suits, crate::proofs::InverseTransform::power_suits, crate::proofs::InverseTransform::transform_congruent, crate::proofs::InverseTransform::transformed_back, crate::proofs::InverseTransform::transform_back_gives_value))]
pub fn transform_laws()
    ensures inverse { (m g h n : ℕ) → IsInverse m g h → Suits m g n → Suits m h n }
    ensures shorter { (m g k n : ℕ) → IsPowerOfTwo n → Suits m g (n * k) → Suits m (g ^ k % m) n }
    ensures congruent { (m g n j : ℕ) (x y : ℕ → ℕ) →
        ((i : ℕ) → i < n → Congruent m (x i) (y i)) → transform m g n x j ≡ transform m g n y j }
    ensures back { (m g h n i : ℕ) (x : ℕ → ℕ) → IsInverse m g h → Suits m g n → i < n →
        Congruent m (transform m h n (transform m g n x) i) (n * x i) }
    ensures restored { (m g h part n i : ℕ) (x : ℕ → ℕ) →
        IsInverse m g h → IsInverse m n part → Suits m g n → i < n →
        Congruent m (transform m h n (transform m g n x) i * part) (x i) }
{}

/// Products of polynomials by values: where x_i·y_j is 0 for all i + j that are at least n, and the modulus is above
/// every sum, the entries of the cyclic product are the coefficients of the product.
///
/// The clause says so by the values of the polynomials at each b.
///
/// Source: Knuth, The Art of Computer Programming, volume 2, section 4.3.3, part C.
pub fn product_laws()
    ensures { (m n b s t : ℕ) (x y : ℕ → ℕ) →
        ((i : ℕ) → i < n → x i ≤ s) → ((j : ℕ) → j < n → y j ≤ t) → n * (s * t) < m →
        ((i j : ℕ) → i < n → j < n → n ≤ i + j → x i * y j ≡ 0) →
        sum_below n (λ e. cyclic_product m n x y e * b ^ e)
        ≡ sum_below n (λ i. x i * b ^ i) * sum_below n (λ j. y j * b ^ j) }
{}
