//! Transforms and products by a plan of at most 2^19 factors on the stack.

ghost use Rattle.std.specs.Prelude.{◌≡◌, ℕ, ◌+◌, ◌*◌, ◌/◌, ◌^◌, ◌<◌, ◌≤◌, All, length};
ghost use Rattle.std.specs.Int.{IsPowerOfTwo};
ghost use Rattle.modular_transform.specs.Transforms.{Suits};
ghost use Rattle.modular_plan_passes.specs.Factors.{IsFactorOf};

use modular_plan_passes::factor::Factor;
use modular_plan_passes::modulus::PlannedModulus;
use modular_plan_passes::table::fill_table;
use modular_plan_transforms::join::join_scaled;
use modular_plan_transforms::plan::Plan;
use modular_prim::plain_word::PlainWord;
use modular_word::path_word::PathWord;
use modular_word::ring_word::RingWord;

// Runs an operation n times on the lists, by its number.
fn carried_out<T: PlainWord>(
    plan: &Plan<T, Factor<T>>,
    operation: u8,
    xs: &mut [T],
    ys: &mut [T],
    n: u64,
)
    requires whole { length xs.old ≡ 2 ^ plan.now.bits }
    requires equal { length ys.old ≡ length xs.old }
    requires entries_xs { All (λ x. T.number x < T.number plan.now.modulus.modulus) xs.old }
    requires entries_ys { All (λ x. T.number x < T.number plan.now.modulus.modulus) ys.old }
{
    'turns: for _ in 0..n {
        match operation {
            0 => (),
            1 => plan.split(xs, 0, 1),
            3 => plan.transform(xs),
            _ => plan.convolve(xs, ys),
        }
    }
}

// Runs `join_scaled` by 1 n times, since `join` also computes the inverse of the number of blocks.
fn joined<T: PlainWord>(m: &PlannedModulus<T>, xs: &mut [T], table: &[Factor<T>], n: u64)
    requires entries { All (λ x. T.number x < T.number m.now.modulus) xs.old }
    requires factors { All (IsFactorOf T.base T.number (T.number m.now.modulus)) table.now }
    requires count { IsPowerOfTwo (length xs.old) }
    requires within { length xs.old ≤ 2 * length table.now }
{
    let one = m.factor(m.residue(T::one()));
    'turns: for _ in 0..n {
        join_scaled(m, xs, table, 0, 1, &one);
    }
}

// The same by the plan of g, which it makes first.
fn planned<T: PlainWord>(
    operation: u8,
    words: (T, T),
    xs: &mut [T],
    ys: &mut [T],
    table: &mut [Factor<T>],
    n: u64,
)
    requires some { 1 ≤ T.number words.0 }
    requires room { 4 * T.number words.0 ≤ T.base }
    requires below { T.number words.1 < T.number words.0 }
    requires suits { Suits (T.number words.0) (T.number words.1) (length xs.old) }
    requires entries_xs { All (λ x. T.number x < T.number words.0) xs.old }
    requires entries_ys { All (λ x. T.number x < T.number words.0) ys.old }
    requires equal { length ys.old ≡ length xs.old }
    requires length { length xs.old ≡ 2 * length table.old }
{
    let (m, g) = words;
    let modulus = PlannedModulus::new(m);
    if operation == 2 {
        fill_table(&modulus, g, table);
        joined(&modulus, xs, table, n);
        return;
    }
    match Plan::new(&modulus, g, table) {
        Some(plan) => carried_out(&plan, operation, xs, ys, n),
        None => (),
    }
}

// The same with a table on the stack.
fn on_the_stack<const FACTORS: usize>(
    operation: u8,
    m: u64,
    g: u64,
    xs: &mut [u64],
    ys: &mut [u64],
    n: u64,
)
    requires few { FACTORS ≤ 524288 }
    requires some { 1 ≤ m }
    requires room { 4 * m ≤ 2 ^ 64 }
    requires below { g < m }
    requires suits { Suits m g (length xs.old) }
    requires entries_xs { All (λ x. x < m) xs.old }
    requires entries_ys { All (λ x. x < m) ys.old }
    requires equal { length ys.old ≡ length xs.old }
    requires length { length xs.old ≡ 2 * FACTORS }
{
    let none = Factor {
        value: 0,
        quotient: 0,
    };
    let mut table = [none; FACTORS];
    planned::<u64>(operation, (m, g), xs, ys, &mut table, n);
}

/// Makes the plan of g for 2^10, 2^16 or 2^20 entries on the stack, and then runs an operation n times: none for 0,
/// `split` for 1, `join_scaled` by 1 for 2, `transform` for 3, `convolve` for 4. Lists of another length are left
/// unchanged; so they are for an even m, but by 2. Conditions: m and g are those of a plan for so many entries; these
/// are below m; the lists have the same length.
#[unsafe(no_mangle)]
pub extern "C" fn bench_planned(
    operation: u8,
    m: u64,
    g: u64,
    xs: &mut [u64],
    ys: &mut [u64],
    n: u64,
)
    requires some { 1 ≤ m }
    requires room { 4 * m ≤ 2 ^ 64 }
    requires below { g < m }
    requires suits { Suits m g (length xs.old) }
    requires entries_xs { All (λ x. x < m) xs.old }
    requires entries_ys { All (λ x. x < m) ys.old }
    requires equal { length ys.old ≡ length xs.old }
{
    match xs.len() {
        1024 => on_the_stack::<512>(operation, m, g, xs, ys, n),
        65536 => on_the_stack::<32768>(operation, m, g, xs, ys, n),
        1048576 => on_the_stack::<524288>(operation, m, g, xs, ys, n),
        _ => (),
    }
}

/// The same in words of 32 bits, for 256 entries.
#[unsafe(no_mangle)]
pub extern "C" fn bench_planned_u32(
    operation: u8,
    m: u32,
    g: u32,
    xs: &mut [u32],
    ys: &mut [u32],
    n: u64,
)
    requires some { 1 ≤ m }
    requires room { 4 * m ≤ 2 ^ 32 }
    requires below { g < m }
    requires suits { Suits m g (length xs.old) }
    requires entries_xs { All (λ x. x < m) xs.old }
    requires entries_ys { All (λ x. x < m) ys.old }
    requires equal { length ys.old ≡ length xs.old }
{
    let none = Factor {
        value: 0,
        quotient: 0,
    };
    if xs.len() == 256 {
        planned::<u32>(operation, (m, g), xs, ys, &mut [none; 128], n);
    }
}
