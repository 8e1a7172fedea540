//! Lists of ring commands on numbers of any size, run modulo each modulus over any reducer.

ghost use Rattle.std.specs.Prelude.{◌≡◌, ◌≢◌, ℕ, ◌+◌, ◌*◌, ◌%◌, ◌<◌, ◌≤◌, ◌↔◌, IsTrue, All, List, map, length, slice_index};
ghost use Rattle.num_modular.specs.Checked.{AreChecked};
ghost use Rattle.num_modular.specs.Ring.{whole, value_at, IsStop, IsFit, carried_out, values_of};
ghost use Rattle.num_modular.specs.Systems.{range_of, AreResidues};
ghost use Rattle.residue_numbers.specs.Registers.{register, StartWith, IsColumnRun, IsRun};

use crate::mixed_radix::System;
use num_modular::Reducer;
use num_modular::laws::inverse_laws;
use num_modular::ring::{AsCommand, RunEnd, run};

// Writes the forms of the words at one place of each register, of those at `count` places.
#[tactic(auto, using(crate::proofs::Columns::all_of_each))]
fn load_column<R: Reducer<u64>>(
    reducer: &R,
    count: usize,
    place: usize,
    words: &[u64],
    forms: &mut [u64],
)
    requires within { place < count }
    requires words { length words.now ≡ length forms.old * count }
    ensures checked { AreChecked R.Reducer (λ x. x) reducer.now forms.new }
    ensures values { let m = R.modulus reducer.now in (r : ℕ) → r < length forms.old →
        slice_index (values_of (λ f. f) R.value m forms.new) r ≡ slice_index words.now (r * count + place) % m }
{
    'registers: for register in 0..forms.len() {
        forms[register] = reducer.transform(words[register * count + place]);
    }
}

// Writes the residues of the forms at one place of each register.
fn unload_column<R: Reducer<u64>>(
    reducer: &R,
    count: usize,
    place: usize,
    forms: &[u64],
    words: &mut [u64],
)
    requires checked { AreChecked R.Reducer (λ x. x) reducer.now forms.now }
    requires within { place < count }
    requires words { length words.old ≡ length forms.now * count }
    ensures written { let m = R.modulus reducer.now in (r : ℕ) → r < length forms.now →
        slice_index words.new (r * count + place) ≡ slice_index (values_of (λ f. f) R.value m forms.now) r }
    ensures kept { (r i : ℕ) → r < length forms.now → i < count → i ≢ place →
        slice_index words.new (r * count + i) ≡ slice_index words.old (r * count + i) }
{
    'registers: for register in 0..forms.len() {
        words[register * count + place] = reducer.residue(forms[register]);
    }
}

// How many of `count` commands a run carried out that ended so.
fn carried_by(end: RunEnd, count: usize) -> usize
    ensures done { end ≡ RunEnd.Done → result ≡ count }
    ensures stopped { (at : ℕ) → end ≡ RunEnd.NoInverse at → result ≡ at }
{
    match end {
        RunEnd::Done => count,
        RunEnd::NoInverse { at } => at,
    }
}

// The end of a run that carried out so many of `count` commands.
fn end_after(carried: usize, count: usize) -> RunEnd
    ensures all { carried ≡ count → result ≡ RunEnd.Done }
    ensures part { carried < count → result ≡ RunEnd.NoInverse carried }
{
    if carried == count {
        RunEnd::Done
    } else {
        RunEnd::NoInverse { at: carried }
    }
}

// The first place whose registers are those after `done` commands: this one, if fewer commands than before were carried out
// here, otherwise the one before.
fn first_kept(done: usize, before: usize, place: usize, again: usize) -> usize
    requires { again ≤ place }
    ensures most { result ≤ place }
    ensures less { done < before → result ≡ place }
    ensures all { before ≤ done → result ≡ again }
{
    if done < before { place } else { again }
}

impl<'a> System<'a> {
    /// Whether the reducers have the system's moduli: in their order.
    ///
    /// # Examples
    ///
    /// ```
    /// use num_modular::applications::residue_numbers::mixed_radix::System;
    /// use num_modular::Montgomery;
    ///
    /// let mut inverses = [0; 2];
    /// let system = System::new(&[3, 5], &mut inverses).unwrap();
    /// assert!(system.has_moduli_of(&[3, 5].map(Montgomery::<u64>::new)));
    /// assert!(!system.has_moduli_of(&[5, 3].map(Montgomery::<u64>::new)));
    /// ```
    pub fn has_moduli_of<R: Reducer<u64>>(&self, reducers: &[R]) -> bool
        ensures { IsTrue result ↔ (map R.modulus reducers.now ≡ self.now.moduli.now) }
    {
        if reducers.len() != self.moduli.len() {
            return false;
        }
        'moduli: for (place, reducer) in reducers.iter().enumerate() {
            if reducer.modulus() != self.moduli[place] {
                return false;
            }
        }
        true
    }

    /// Carries out commands up to the first missing inverse: in order, on numbers modulo the product M of the moduli,
    /// up to the first whose inverse doesn't exist modulo M, that is, modulo one of the moduli.
    ///
    /// Each modulus has a reducer, over which the commands are run as `num_modular::ring::run` does; a modulus is run
    /// twice where a later one stops before it. Each of these runs reads the commands anew.
    ///
    /// A register takes as many words as there are moduli, and the registers stand one after the other in a list. The
    /// inputs are words that are congruent, modulo each modulus, to the numbers that the registers start with: such as
    /// the residues that `encode` writes of words of 64 bits, or `residues` of digits, or a number below 2^64 itself in
    /// each place. Afterwards each register holds the residues of its value, computed on whole numbers modulo M, after
    /// the commands that were carried out; `digits` returns the number. The contents of `forms`, which has one entry a
    /// register, are ignored, and so are those of `registers`.
    ///
    /// # Conditions
    ///
    /// - the moduli are those of the reducers (`has_moduli_of` tells)
    /// - for each modulus, each entry of `forms` has an input and room for a residue
    /// - (debug) each register number is below the length of `forms` (`commands_fit` of `num_modular::ring` tells)
    ///
    /// # Examples
    ///
    /// ```
    /// use num_modular::applications::residue_numbers::mixed_radix::System;
    /// use num_modular::ring::{RingCommand, RunEnd};
    /// use num_modular::Montgomery;
    ///
    /// let moduli = [3, 5, 7];
    /// let reducers = moduli.map(Montgomery::<u64>::new);
    /// let mut inverses = [0; 3];
    /// let system = System::new(&moduli, &mut inverses).unwrap();
    /// let commands = [RingCommand::Mul { dst: 0, a: 0, b: 1 }, RingCommand::Inv { dst: 1, a: 1 }];
    /// let (mut forms, mut registers) = ([0; 2], [0; 6]);
    /// // registers of 23 and 4
    /// let end = system.run(&reducers, &commands, &[2, 3, 2, 4, 4, 4], &mut forms, &mut registers);
    /// assert_eq!(end, RunEnd::Done);
    /// assert_eq!(registers, [2, 2, 1, 1, 4, 2]); // 92, and 79, since 4 * 79 = 3 * 105 + 1
    /// ```
    // rust: #[track_caller]
    pub fn run<R: Reducer<u64>, C: AsCommand<u64>>(
        &self,
        reducers: &[R],
        commands: &[C],
        inputs: &[u64],
        forms: &mut [u64],
        registers: &mut [u64],
    ) -> RunEnd
        requires reducers { map R.modulus reducers.now ≡ self.now.moduli.now }
        requires fit { All (λ c. IsFit (length forms.old) (C.command c)) commands.now }
        requires inputs { length inputs.now ≡ length forms.old * length self.now.moduli.now }
        requires room { length registers.old ≡ length forms.old * length self.now.moduli.now }

        // The run stops exactly where `IsStop` says, by numbers modulo the product of the moduli.
        ensures stops { let moduli = self.now.moduli.now in
            let wholes = map (λ c. whole (λ n. n) (C.command c)) commands.now in
            (start : List ℕ) → length start ≡ length forms.old → StartWith moduli inputs.now start →
            (at : ℕ) → (result ≡ RunEnd.NoInverse at) ↔ IsStop (range_of moduli) start wholes at }
        ensures done { let moduli = self.now.moduli.now in
            let wholes = map (λ c. whole (λ n. n) (C.command c)) commands.now in
            (start : List ℕ) → length start ≡ length forms.old → StartWith moduli inputs.now start →
            (result ≡ RunEnd.Done) ↔ ((at : ℕ) → IsStop (range_of moduli) start wholes at → ⊥) }

        // Each register then holds the residues of its value at the stop.
        ensures residues { let moduli = self.now.moduli.now in
            let wholes = map (λ c. whole (λ n. n) (C.command c)) commands.now in
            (start : List ℕ) → length start ≡ length forms.old → StartWith moduli inputs.now start →
            (r : ℕ) → r < length start → AreResidues moduli (register (length moduli) registers.new r)
            (value_at (range_of moduli) start wholes (carried_out result wholes) r) }
    {
        // rust: assert!(self.has_moduli_of(reducers), "the moduli must be those of the reducers");
        // rust: debug_assert!(commands.iter().all(|c| crate::ring::commands_fit(&[c.command()], forms.len())),
        // rust:     "each register number must be below the length of `forms`");
        // rust: assert!(inputs.len() == forms.len() * reducers.len() && registers.len() == inputs.len(),
        // rust:     "for each modulus, each entry of `forms` must have an input and room for a residue");
        let carried = self.carry_out(reducers, commands, inputs, forms, registers);
        end_after(carried, commands.len())
    }

    // Does as `run`, and returns how many commands were carried out.
    fn carry_out<R: Reducer<u64>, C: AsCommand<u64>>(
        &self,
        reducers: &[R],
        commands: &[C],
        inputs: &[u64],
        forms: &mut [u64],
        registers: &mut [u64],
    ) -> usize
        requires reducers { map R.modulus reducers.now ≡ self.now.moduli.now }
        requires fit { All (λ c. IsFit (length forms.old) (C.command c)) commands.now }
        requires inputs { length inputs.now ≡ length forms.old * length self.now.moduli.now }
        requires room { length registers.old ≡ length forms.old * length self.now.moduli.now }
        ensures most { result ≤ length commands.now }
        ensures run { let moduli = self.now.moduli.now in
            let wholes = map (λ c. whole (λ n. n) (C.command c)) commands.now in
            (start : List ℕ) → length start ≡ length forms.old → StartWith moduli inputs.now start →
            IsRun moduli start wholes registers.new result }
    {
        inverse_laws();
        let mut carried = commands.len();
        let mut again = 0;
        'moduli: for place in 0..self.moduli.len() {
            let before = carried;
            carried = self.run_column(reducers, place, commands, before, inputs, forms, registers);
            again = first_kept(carried, before, place, again);
        }
        // The moduli before the one with the stop were run beyond it.
        'again: for place in 0..again {
            self.run_column(reducers, place, commands, carried, inputs, forms, registers);
        }
        carried
    }

    // Runs the first `count` commands modulo one modulus, from the inputs at its place, and writes the residues there.
    // Returns how many were carried out.
    fn run_column<R: Reducer<u64>, C: AsCommand<u64>>(
        &self,
        reducers: &[R],
        place: usize,
        commands: &[C],
        count: usize,
        inputs: &[u64],
        forms: &mut [u64],
        registers: &mut [u64],
    ) -> usize
        requires reducers { map R.modulus reducers.now ≡ self.now.moduli.now }
        requires within { place < length self.now.moduli.now }
        requires count { count ≤ length commands.now }
        requires fit { All (λ c. IsFit (length forms.old) (C.command c)) commands.now }
        requires inputs { length inputs.now ≡ length forms.old * length self.now.moduli.now }
        requires room { length registers.old ≡ length forms.old * length self.now.moduli.now }
        ensures most { result ≤ count }
        ensures run { let moduli = self.now.moduli.now in
            let wholes = map (λ c. whole (λ n. n) (C.command c)) commands.now in
            (start : List ℕ) → length start ≡ length forms.old → StartWith moduli inputs.now start →
            IsColumnRun moduli place start wholes count registers.new result }
        ensures kept { let n = length self.now.moduli.now in
            (r i : ℕ) → r < length forms.old → i < n → i ≢ place →
            slice_index registers.new (r * n + i) ≡ slice_index registers.old (r * n + i) }
    {
        let moduli = self.moduli.len();
        let reducer = &reducers[place];
        load_column(reducer, moduli, place, inputs, forms);
        let end = run(reducer, forms, &commands[..count]);
        unload_column(reducer, moduli, place, forms, registers);
        carried_by(end, count)
    }
}
