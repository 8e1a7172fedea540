//! Lists of commands on registers, run over any reducer.

ghost use Rattle.std.specs.Prelude.{◌≡◌, ℕ, ◌+◌, ◌*◌, ◌%◌, ◌<◌, ◌↔◌, IsTrue, IsFalse, Some, All, length};
ghost use Rattle.std.specs.Prelude.{map, option_map, slice_index, slice_index_or, slice_set};
ghost use Rattle.modular_word.specs.Inverses.{inverse_of};
ghost use Rattle.modular_reduced.specs.Checked.{AreChecked, IsChecked};
ghost use Rattle.modular_ring.specs.Ring.{whole, destination_of, outcome, value_at, value_after, values_of, carried_out};
ghost use Rattle.modular_ring.specs.Ring.{LacksInverse, IsStop, IsFit, IsFormOf, HoldValues};
ghost use Rattle.modular_ring.specs.RunSteps.{IsHeldAt, Combines, MayGoOn, GoesOn};
ghost use Rattle.modular_ring.specs.declared.ring.RingCommand.{RingCommand};

use modular_reduced::reducer::Reducer;
use modular_word::ring_word::RingWord;
// rattle: line
use std::alloc::AllocError;

/// A command on registers: each is given by its index in a slice of forms.
///
/// Operands are read before `dst` is written, so `dst` may be an operand.
///
/// # Examples
///
/// ```
/// use num_modular::ring::{run, RingCommand};
/// use num_modular::{Reducer, Vanilla};
///
/// let ring = Vanilla::<u64>::new(&97);
/// let mut registers = [0];
/// run(&ring, &mut registers, &[RingCommand::Load { dst: 0, n: 1000 }, RingCommand::Sqr { dst: 0, a: 0 }]);
/// assert_eq!(registers, [27]); // 1000000 modulo 97
/// ```
// rust: #[derive(Hash)]
#[derive(Debug, PartialEq, Eq)]
pub enum RingCommand<T> {
    /// Writes n modulo m.
    Load {
        /// The register that is written.
        dst: usize,
        /// Any word; it may be at least m.
        n: T,
    },
    /// Writes the sum of two registers.
    Add {
        /// The register that is written.
        dst: usize,
        /// The register of the first term.
        a: usize,
        /// The register of the second term.
        b: usize,
    },
    /// Writes the difference of two registers.
    Sub {
        /// The register that is written.
        dst: usize,
        /// The register of the minuend.
        a: usize,
        /// The register of the subtrahend.
        b: usize,
    },
    /// Writes the product of two registers.
    Mul {
        /// The register that is written.
        dst: usize,
        /// The register of the first factor.
        a: usize,
        /// The register of the second factor.
        b: usize,
    },
    /// Writes the negative of a register.
    Neg {
        /// The register that is written.
        dst: usize,
        /// The register of the operand.
        a: usize,
    },
    /// Writes the double of a register.
    Dbl {
        /// The register that is written.
        dst: usize,
        /// The register of the operand.
        a: usize,
    },
    /// Writes the square of a register.
    Sqr {
        /// The register that is written.
        dst: usize,
        /// The register of the operand.
        a: usize,
    },
    /// Writes the inverse of a register: the run stops where there is none.
    Inv {
        /// The register that is written.
        dst: usize,
        /// The register of the operand.
        a: usize,
    },
    /// Writes the quotient of two registers: the first times the inverse of the second.
    ///
    /// The run stops where that has no inverse, even where the first holds 0.
    Div {
        /// The register that is written.
        dst: usize,
        /// The register of the dividend.
        a: usize,
        /// The register of the divisor.
        b: usize,
    },
    /// Writes a power of a register: 1 modulo m for the exponent 0.
    Pow {
        /// The register that is written.
        dst: usize,
        /// The register of the base.
        a: usize,
        /// The exponent itself, not a register.
        exp: T,
    },
}

impl<T: Copy> Clone for RingCommand<T> {
    ghost is_clone = { λ x y. y ≡ x };

    ghost is_infallible = { λ _. Unit {0} };

    // rust instead: fn clone(&self) -> Self {
    fn clone(&self) -> Result<Self, AllocError> {
        // rust instead: *self
        Ok(*self)
    }
}

impl<T: Copy> Copy for RingCommand<T> {}

/// A command as [`run`] reads it: [`RingCommand`] itself, or a struct of the caller that represents one, such as one
/// with the layout of another language.
///
/// # Examples
///
/// ```
/// use num_modular::ring::{run, AsCommand, RingCommand};
/// use num_modular::{Reducer, Vanilla};
///
/// struct Square(usize);
///
/// impl AsCommand<u64> for Square {
///     fn command(&self) -> RingCommand<u64> {
///         RingCommand::Sqr { dst: self.0, a: self.0 }
///     }
/// }
///
/// let mut registers = [10];
/// run(&Vanilla::<u64>::new(&97), &mut registers, &[Square(0)]);
/// assert_eq!(registers, [3]); // 100 - 97
/// ```
// rust instead: pub trait AsCommand<T: RingWord>: Sized {
pub trait AsCommand<T: RingWord> {
    // The command that it represents.
    ghost command: { Self → RingCommand T };

    /// The command that it represents.
    ///
    /// # Examples
    ///
    /// ```
    /// use num_modular::ring::{AsCommand, RingCommand};
    ///
    /// let command = RingCommand::<u64>::Dbl { dst: 1, a: 0 };
    /// assert_eq!(command.command(), command);
    /// ```
    fn command(&self) -> RingCommand<T>
        ensures { result ≡ command self.now };
}

impl<T: RingWord> AsCommand<T> for RingCommand<T> {
    ghost command = { λ command. command };

    fn command(&self) -> RingCommand<T> {
        *self
    }
}

/// How a run ended.
///
/// # Examples
///
/// ```
/// use num_modular::ring::{run, RingCommand, RunEnd};
/// use num_modular::{Reducer, Vanilla};
///
/// let ring = Vanilla::<u64>::new(&10);
/// let inverse = RingCommand::Inv { dst: 0, a: 0 };
/// assert_eq!(run(&ring, &mut [3], &[inverse]), RunEnd::Done);
/// assert_eq!(run(&ring, &mut [4], &[inverse]), RunEnd::NoInverse { at: 0 });
/// ```
// rust: #[derive(Hash)]
#[derive(Clone, Copy, Debug, PartialEq, Eq)]
// rust: #[must_use]
pub enum RunEnd {
    /// Every command was carried out.
    Done,
    /// The inverse of this command doesn't exist: neither that command nor a later one wrote anything.
    NoInverse {
        /// The number of that command, counted from 0.
        at: usize,
    },
}

// Whether two register numbers are below `len`.
fn two_fit(dst: usize, a: usize, len: usize) -> bool
    ensures { IsTrue result ↔ (dst < len) × (a < len) }
{
    dst < len && a < len
}

// Whether three register numbers are below `len`.
fn three_fit(dst: usize, a: usize, b: usize, len: usize) -> bool
    ensures { IsTrue result ↔ (dst < len) × (a < len) × (b < len) }
{
    two_fit(dst, a, len) && b < len
}

// Whether each register number of a command is below `len`.
fn command_fits<T: RingWord>(command: &RingCommand<T>, len: usize) -> bool
    ensures { IsTrue result ↔ IsFit len command.now }
{
    match command {
        RingCommand::Load { dst, .. } => *dst < len,
        RingCommand::Add { dst, a, b }
        | RingCommand::Sub { dst, a, b }
        | RingCommand::Mul { dst, a, b }
        | RingCommand::Div { dst, a, b } => three_fit(*dst, *a, *b, len),
        RingCommand::Neg { dst, a }
        | RingCommand::Dbl { dst, a }
        | RingCommand::Sqr { dst, a }
        | RingCommand::Inv { dst, a }
        | RingCommand::Pow { dst, a, .. } => two_fit(*dst, *a, len),
    }
}

/// Whether each register number is below `len`.
///
/// # Examples
///
/// ```
/// use num_modular::ring::{commands_fit, RingCommand};
///
/// let commands = [RingCommand::<u64>::Add { dst: 2, a: 0, b: 1 }];
/// assert!(commands_fit(&commands, 3));
/// assert!(!commands_fit(&commands, 2));
/// ```
pub fn commands_fit<T: RingWord, C: AsCommand<T>>(commands: &[C], len: usize) -> bool
    ensures { IsTrue result ↔ All (λ c. IsFit len (C.command c)) commands.now }
{
    commands
        .iter()
        .all(|command| command_fits(&command.command(), len))
}

/// Whether each register holds a checked form.
///
/// # Examples
///
/// ```
/// use num_modular::ring::all_checked;
/// use num_modular::{Reducer, Vanilla};
///
/// let ring = Vanilla::<u64>::new(&97);
/// assert!(all_checked(&ring, &[0, 96]));
/// assert!(!all_checked(&ring, &[0, 97]));
/// ```
pub fn all_checked<T: RingWord, R: Reducer<T>>(r: &R, regs: &[T]) -> bool
    ensures { IsTrue result ↔ AreChecked R.Reducer T.number r.now regs.now }
{
    regs.iter().all(|form| r.check(form))
}

// The register that a command writes.
fn destination<T: RingWord>(command: &RingCommand<T>) -> usize
    ensures value { result ≡ destination_of (whole T.number command.now) }
    ensures within { (count : ℕ) → IsFit count command.now → result < count }
{
    match command {
        RingCommand::Load { dst, .. }
        | RingCommand::Add { dst, .. }
        | RingCommand::Sub { dst, .. }
        | RingCommand::Mul { dst, .. }
        | RingCommand::Neg { dst, .. }
        | RingCommand::Dbl { dst, .. }
        | RingCommand::Sqr { dst, .. }
        | RingCommand::Inv { dst, .. }
        | RingCommand::Div { dst, .. }
        | RingCommand::Pow { dst, .. } => *dst,
    }
}

// The form of the quotient of two forms; `None` exactly where the second has no inverse.
#[inline(never)]
fn quotient<T: RingWord, R: Reducer<T>>(r: &R, a: &T, b: T) -> Option<T>
    requires dividend { IsChecked R.Reducer T.number r.now a.now }
    requires divisor { IsChecked R.Reducer T.number r.now b }
    ensures { let m = R.modulus r.now in
        let x = R.value m (T.number a.now) in
        IsFormOf T.number R.form m (option_map (λ y. (x * y) % m) (inverse_of m (R.value m (T.number b)))) result }
{
    let inverse = r.inv(b)?;
    Some(r.mul(a, &inverse))
}

// The form that a command writes; `None` exactly where its inverse doesn't exist. Condition: the command is no sum,
// difference or product, since `run` computes these itself.
//
// Kept out of line and cold, so that the loop of `run` stays small and sums, differences and products go straight on.
#[cold]
#[inline(never)]
// rust: #[track_caller]
#[tactic(auto, using(crate::proofs::RunLemmas::form_of_one, crate::proofs::RunLemmas::value_of))]
fn computed_form<T: RingWord, R: Reducer<T>>(
    r: &R,
    regs: &[T],
    command: RingCommand<T>,
) -> Option<T>
    requires checked { AreChecked R.Reducer T.number r.now regs.now }
    requires fit { IsFit (length regs.now) command }
    requires other { Combines command → ⊥ }
    ensures { let m = R.modulus r.now in
        (v : ℕ → ℕ) → HoldValues T.number R.form m regs.now v →
        IsFormOf T.number R.form m (outcome m v (whole T.number command)) result }
{
    match command {
        RingCommand::Load { n, .. } => Some(r.transform(n)),
        RingCommand::Add { .. } | RingCommand::Sub { .. } | RingCommand::Mul { .. } => {
            // rust instead: panic!("the command must be no sum, difference or product, since `run` computes these itself")
            unreachable!()
        }
        RingCommand::Neg { a, .. } => Some(r.neg(regs[a])),
        RingCommand::Dbl { a, .. } => Some(r.dbl(regs[a])),
        RingCommand::Sqr { a, .. } => Some(r.sqr(regs[a])),
        RingCommand::Inv { a, .. } => r.inv(regs[a]),
        RingCommand::Div { a, b, .. } => quotient(r, &regs[a], regs[b]),
        RingCommand::Pow { a, exp, .. } => Some(r.pow(regs[a], &exp)),
    }
}

// The register that was written last, and its form. A command that reads this register takes the form from here, so it
// doesn't wait for the store.
#[derive(Clone, Copy)]
struct Last<T> {
    register: usize,
    form: T,
}

// The last register before the first command: the first one, with its form. Any other mark would be a register that
// doesn't exist, which a command could name. An empty list has no first one either; there each write panics.
fn first_register<T: RingWord>(regs: &[T]) -> Last<T>
    ensures { IsHeldAt regs.now result.register result.form }
{
    Last {
        register: 0,
        form: regs.first().copied().unwrap_or(T::zero()),
    }
}

// The form that register a holds.
#[inline(always)]
fn held<T: RingWord>(regs: &[T], last: &Last<T>, a: usize) -> T
    requires within { a < length regs.now }
    requires holds { IsHeldAt regs.now last.now.register last.now.form }
    ensures { result ≡ slice_index_or regs.now a result }
{
    if a == last.register {
        last.form
    } else {
        regs[a]
    }
}

// Writes a register, which is then the last one.
#[inline(always)]
fn write<T: RingWord>(regs: &mut [T], last: &mut Last<T>, dst: usize, form: T)
    requires { dst < length regs.old }
    ensures written { regs.new ≡ slice_set regs.old dst form }
    ensures holds { IsHeldAt regs.new last.new.register last.new.form }
{
    regs[dst] = form;
    last.register = dst;
    last.form = form;
}

// Carries out a command; false exactly where its inverse doesn't exist, and then nothing is written.
//
// Inlined into the loop of `run`. Sums, differences and products are computed here, since a call for each of them would
// take as long as the command. Each has an arm of its own up to the write, since one for the three is slower. Only the
// first operand is looked for in `last`: the test takes time in every command.
#[inline(always)]
fn carry_out<T: RingWord, R: Reducer<T>>(
    r: &R,
    regs: &mut [T],
    last: &mut Last<T>,
    command: RingCommand<T>,
) -> bool
    requires checked { AreChecked R.Reducer T.number r.now regs.old }
    requires fit { IsFit (length regs.old) command }
    requires holds { IsHeldAt regs.old last.old.register last.old.form }
    ensures count { length regs.new ≡ length regs.old }
    ensures values { let m = R.modulus r.now in
        IsTrue result → (v : ℕ → ℕ) → HoldValues T.number R.form m regs.old v →
        HoldValues T.number R.form m regs.new (value_after m v (Some (whole T.number command))) }
    ensures missing { let m = R.modulus r.now in
        (v : ℕ → ℕ) → HoldValues T.number R.form m regs.old v →
        IsFalse result ↔ LacksInverse m v (whole T.number command) }
    ensures kept { IsFalse result → regs.new ≡ regs.old }
    ensures holds { IsHeldAt regs.new last.new.register last.new.form }
{
    match command {
        RingCommand::Add { dst, a, b } => {
            let form = r.add(&held(regs, last, a), &regs[b]);
            write(regs, last, dst, form);
            true
        }
        RingCommand::Sub { dst, a, b } => {
            let form = r.sub(&held(regs, last, a), &regs[b]);
            write(regs, last, dst, form);
            true
        }
        RingCommand::Mul { dst, a, b } => {
            let form = r.mul(&held(regs, last, a), &regs[b]);
            write(regs, last, dst, form);
            true
        }
        _ => {
            let Some(form) = computed_form(r, regs, command) else {
                return false;
            };
            write(regs, last, destination(&command), form);
            true
        }
    }
}

// Carries out command number `at` and counts it; false exactly where its inverse doesn't exist.
#[inline(always)]
fn carry_out_at<T: RingWord, R: Reducer<T>, C: AsCommand<T>>(
    r: &R,
    regs: &mut [T],
    last: &mut Last<T>,
    commands: &[C],
    at: &mut usize,
) -> bool
    requires { MayGoOn R.Reducer T.number C.command r.now commands.now regs.old last.old (at.old + 1) }
    ensures { GoesOn R.Reducer T.number C.command r.now commands.now regs.old regs.new last.new at.old at.new
        (at.old + 1) result }
{
    let done = carry_out(r, regs, last, commands[*at].command());
    if done {
        *at += 1;
    }
    done
}

// The same of two commands: false where one's inverse doesn't exist, and `at` is then the number of that one.
#[inline(always)]
fn carry_out_two<T: RingWord, R: Reducer<T>, C: AsCommand<T>>(
    r: &R,
    regs: &mut [T],
    last: &mut Last<T>,
    commands: &[C],
    at: &mut usize,
) -> bool
    requires { MayGoOn R.Reducer T.number C.command r.now commands.now regs.old last.old (at.old + 2) }
    ensures { GoesOn R.Reducer T.number C.command r.now commands.now regs.old regs.new last.new at.old at.new
        (at.old + 2) result }
{
    carry_out_at(r, regs, last, commands, at) && carry_out_at(r, regs, last, commands, at)
}

// The same of four.
#[inline(always)]
fn carry_out_four<T: RingWord, R: Reducer<T>, C: AsCommand<T>>(
    r: &R,
    regs: &mut [T],
    last: &mut Last<T>,
    commands: &[C],
    at: &mut usize,
) -> bool
    requires { MayGoOn R.Reducer T.number C.command r.now commands.now regs.old last.old (at.old + 4) }
    ensures { GoesOn R.Reducer T.number C.command r.now commands.now regs.old regs.new last.new at.old at.new
        (at.old + 4) result }
{
    carry_out_two(r, regs, last, commands, at) && carry_out_two(r, regs, last, commands, at)
}

// The same of all commands. Four in a turn, each with code of its own, take fewer jumps than a turn for each.
#[inline(always)]
fn carry_out_all<T: RingWord, R: Reducer<T>, C: AsCommand<T>>(
    r: &R,
    regs: &mut [T],
    last: &mut Last<T>,
    commands: &[C],
    at: &mut usize,
) -> bool
    requires { MayGoOn R.Reducer T.number C.command r.now commands.now regs.old last.old at.old }
    ensures { GoesOn R.Reducer T.number C.command r.now commands.now regs.old regs.new last.new at.old at.new
        (length commands.now) result }
{
    'fours: while commands.len() - *at >= 4 {
        if !carry_out_four(r, regs, last, commands, at) {
            return false;
        }
    }
    'commands: while *at < commands.len() {
        if !carry_out_at(r, regs, last, commands, at) {
            return false;
        }
    }
    true
}

/// Carries out the commands in order, up to the first whose inverse doesn't exist.
///
/// The run stops exactly at the first `Inv` or `Div` whose operand (for `Div`: b) has no inverse modulo m. That
/// command and all later ones write nothing; what earlier ones wrote remains. Each register then holds the checked
/// form of its value after the commands that were carried out, computed on whole numbers modulo m. No memory is
/// allocated, and each command that is reached is read once.
///
/// # Conditions
///
/// - each register number is below the number of registers ([`commands_fit`] tells): a release build panics at the
///   first command that it reaches and that names another one
/// - (debug) each register holds a checked form ([`all_checked`] tells)
///
/// # Examples
///
/// ```
/// use num_modular::ring::{run, RingCommand};
/// use num_modular::{Reducer, Vanilla};
///
/// let ring = Vanilla::<u64>::new(&97);
/// let mut registers = [ring.transform(5), ring.transform(20)];
/// let commands = [RingCommand::Mul { dst: 0, a: 0, b: 1 }, RingCommand::Inv { dst: 1, a: 1 }];
/// run(&ring, &mut registers, &commands);
/// assert_eq!(registers.map(|f| ring.residue(f)), [3, 34]);
/// ```
// rust: #[cfg_attr(debug_assertions, track_caller)]
pub fn run<T: RingWord, R: Reducer<T>, C: AsCommand<T>>(
    r: &R,
    regs: &mut [T],
    commands: &[C],
) -> RunEnd
    requires checked { AreChecked R.Reducer T.number r.now regs.old }
    requires fit { All (λ c. IsFit (length regs.old) (C.command c)) commands.now }

    // The run stops exactly where `IsStop` says, by the values of the registers.
    ensures stops { let m = R.modulus r.now in
        let start = values_of T.number R.value m regs.old in
        let wholes = map (λ c. whole T.number (C.command c)) commands.now in
        (at : ℕ) → (result ≡ RunEnd.NoInverse at) ↔ IsStop m start wholes at }
    ensures done { let m = R.modulus r.now in
        let start = values_of T.number R.value m regs.old in
        let wholes = map (λ c. whole T.number (C.command c)) commands.now in
        (result ≡ RunEnd.Done) ↔ ((at : ℕ) → IsStop m start wholes at → ⊥) }

    // Each register then holds the checked form of its value at the stop.
    ensures values { let m = R.modulus r.now in
        let start = values_of T.number R.value m regs.old in
        let wholes = map (λ c. whole T.number (C.command c)) commands.now in
        HoldValues T.number R.form m regs.new (value_at m start wholes (carried_out result wholes)) }
    ensures checked { AreChecked R.Reducer T.number r.now regs.new }

    // So its residue is that value, for the list of values and for each register that is read.
    ensures residues { let m = R.modulus r.now in
        let start = values_of T.number R.value m regs.old in
        let wholes = map (λ c. whole T.number (C.command c)) commands.now in
        (n : ℕ) → n < length regs.old → slice_index (values_of T.number R.value m regs.new) n
        ≡ value_at m start wholes (carried_out result wholes) n }
    ensures read { let m = R.modulus r.now in
        let start = values_of T.number R.value m regs.old in
        let wholes = map (λ c. whole T.number (C.command c)) commands.now in
        (n : ℕ) (other : T) → n < length regs.old → R.value m (T.number (slice_index_or regs.new n other))
        ≡ value_at m start wholes (carried_out result wholes) n }
{
    // rust: debug_assert!(all_checked(r, regs), "each register must hold a checked form");
    // rust: debug_assert!(commands_fit(commands, regs.len()),
    // rust:     "each register number must be below the number of registers");
    let mut last = first_register(regs);
    let mut at = 0;
    if !carry_out_all(r, regs, &mut last, commands, &mut at) {
        return RunEnd::NoInverse { at };
    }
    RunEnd::Done
}
