//! Reads numbers and ring commands from text.

ghost use Rattle.std.specs.Prelude.{◌≡◌, ℕ, ◌<◌, List, ◌∷◌, [], MatchOption};
ghost use Rattle.num_modular.specs.Words.{IsNumberText, AreNumberTexts, IsReadAs};
ghost use Rattle.num_modular.specs.Words.{IsCommand, IsCommandWord, FindsWhere, parts};

use crate::commands::RingCommand;

/// The number of registers.
pub const REGISTERS: usize = 8;

/// The number that one or more ASCII digits denote, with leading zeros allowed; `None` exactly where the text isn't
/// digits, or the number is above 2^64 - 1.
pub fn number(text: &str) -> Option<u64>
    ensures { FindsWhere (IsNumberText text.now) result }
{
    if text.starts_with('+') {
        return None;
    }
    text.parse::<u64>().ok()
}

// The number of a register.
fn register(text: &str) -> Option<usize>
    ensures { FindsWhere (λ r. (r < 8) × IsNumberText text.now r) result }
{
    let n = number(text)?;
    if n < REGISTERS as u64 {
        Some(n as usize)
    } else {
        None
    }
}

// The register number before the first comma, and the text after the comma.
fn first_register(text: &str) -> Option<(usize, &str)>
    ensures { MatchOption result
        ((r n : ℕ) (ns : List ℕ) → r < 8 → AreNumberTexts (parts text.now) (r ∷ n ∷ ns) → ⊥)
        (λ p. (p.0 < 8) × IsReadAs text.now p.0 p.1.now) }
{
    let (first, rest) = text.split_once(',')?;
    Some((register(first)?, rest))
}

// A register and a number.
#[tactic(auto, using(crate::proofs::CommandTexts::last_number, crate::proofs::CommandTexts::read_rest, crate::proofs::CommandTexts::last_text, crate::proofs::CommandTexts::read_more))]
fn register_and_number(text: &str) -> Option<(usize, u64)>
    ensures { MatchOption result ((r n : ℕ) → r < 8 → AreNumberTexts (parts text.now) (r ∷ n ∷ []) → ⊥)
        (λ p. (p.0 < 8) × AreNumberTexts (parts text.now) (p.0 ∷ p.1 ∷ [])) }
{
    let (dst, rest) = first_register(text)?;
    Some((dst, number(rest)?))
}

// Two registers.
#[tactic(auto, using(crate::proofs::CommandTexts::last_number, crate::proofs::CommandTexts::read_rest))]
fn two_registers(text: &str) -> Option<(usize, usize)>
    ensures { MatchOption result ((r s : ℕ) → r < 8 → s < 8 → AreNumberTexts (parts text.now) (r ∷ s ∷ []) → ⊥)
        (λ p. (p.0 < 8) × (p.1 < 8) × AreNumberTexts (parts text.now) (p.0 ∷ p.1 ∷ [])) }
{
    let (dst, rest) = first_register(text)?;
    Some((dst, register(rest)?))
}

// Two registers and a number.
fn two_registers_and_number(text: &str) -> Option<(usize, usize, u64)>
    ensures { MatchOption result
        ((r s n : ℕ) → r < 8 → s < 8 → AreNumberTexts (parts text.now) (r ∷ s ∷ n ∷ []) → ⊥)
        (λ p. (p.0 < 8) × (p.1 < 8) × AreNumberTexts (parts text.now) (p.0 ∷ p.1 ∷ p.2 ∷ [])) }
{
    let (dst, rest) = first_register(text)?;
    let (a, n) = register_and_number(rest)?;
    Some((dst, a, n))
}

// Three registers.
fn three_registers(text: &str) -> Option<(usize, usize, usize)>
    ensures { MatchOption result
        ((r s t : ℕ) → r < 8 → s < 8 → t < 8 → AreNumberTexts (parts text.now) (r ∷ s ∷ t ∷ []) → ⊥)
        (λ p. (p.0 < 8) × (p.1 < 8) × (p.2 < 8) × AreNumberTexts (parts text.now) (p.0 ∷ p.1 ∷ p.2 ∷ [])) }
{
    let (dst, rest) = first_register(text)?;
    let (a, b) = two_registers(rest)?;
    Some((dst, a, b))
}

// The command of a name and of the text after the first comma.
fn named_command(name: &str, numbers: &str) -> Option<RingCommand<u64>>
    ensures { FindsWhere (IsCommand name.now (parts numbers.now)) result }
{
    match name {
        "load" => {
            let (dst, n) = register_and_number(numbers)?;
            Some(RingCommand::Load { dst, n })
        }
        "add" => {
            let (dst, a, b) = three_registers(numbers)?;
            Some(RingCommand::Add { dst, a, b })
        }
        "sub" => {
            let (dst, a, b) = three_registers(numbers)?;
            Some(RingCommand::Sub { dst, a, b })
        }
        "mul" => {
            let (dst, a, b) = three_registers(numbers)?;
            Some(RingCommand::Mul { dst, a, b })
        }
        "neg" => {
            let (dst, a) = two_registers(numbers)?;
            Some(RingCommand::Neg { dst, a })
        }
        "dbl" => {
            let (dst, a) = two_registers(numbers)?;
            Some(RingCommand::Dbl { dst, a })
        }
        "sqr" => {
            let (dst, a) = two_registers(numbers)?;
            Some(RingCommand::Sqr { dst, a })
        }
        "inv" => {
            let (dst, a) = two_registers(numbers)?;
            Some(RingCommand::Inv { dst, a })
        }
        "div" => {
            let (dst, a, b) = three_registers(numbers)?;
            Some(RingCommand::Div { dst, a, b })
        }
        "pow" => {
            let (dst, a, exp) = two_registers_and_number(numbers)?;
            Some(RingCommand::Pow { dst, a, exp })
        }
        _ => None,
    }
}

/// The command that a word denotes: its name and its numbers, with a comma before each number; `None` exactly where
/// it denotes none, or a register number is out of range.
pub fn command(word: &str) -> Option<RingCommand<u64>>
    ensures { FindsWhere (IsCommandWord word.now) result }
{
    let (name, numbers) = word.split_once(',')?;
    named_command(name, numbers)
}
