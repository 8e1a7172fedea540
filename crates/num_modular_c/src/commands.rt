//! Lists of commands for C.

ghost use Rattle.std.specs.Prelude.{◌<◌, ◌↔◌, IsTrue, All};
ghost use Rattle.num_modular.specs.Ring.{IsFit};
ghost use Rattle.num_modular_c.specs.Commands.{ring_command_of, IsAdmittedBy};

use num_modular::ring::{AsCommand, RingCommand, commands_fit};

/// Writes n modulo m.
pub const NM_LOAD: u32 = 0;
/// Writes a + b.
pub const NM_ADD: u32 = 1;
/// Writes a - b.
pub const NM_SUB: u32 = 2;
/// Writes a times b.
pub const NM_MUL: u32 = 3;
/// Writes -a.
pub const NM_NEG: u32 = 4;
/// Writes 2 times a.
pub const NM_DBL: u32 = 5;
/// Writes a times a.
pub const NM_SQR: u32 = 6;
/// Writes the inverse of a; the run stops where there is none.
pub const NM_INV: u32 = 7;
/// Writes a times the inverse of b; the run stops where b has none.
pub const NM_DIV: u32 = 8;
/// Writes a to the power n.
pub const NM_POW: u32 = 9;

// The number of operations.
const OPERATIONS: u32 = NM_POW + 1;

/// A command on registers, each given by its index. Fields that an operation doesn't use may have any value.
#[repr(C)]
#[derive(Clone, Copy)]
// rust: #[must_use]
pub struct NmCommand {
    /// The operation: one of the constants above.
    pub operation: u32,
    /// The register that is written.
    pub dst: usize,
    /// The register of the first operand.
    pub a: usize,
    /// The register of the second operand.
    pub b: usize,
    /// The number that is loaded, or the exponent.
    pub n: u64,
}

impl AsCommand<u64> for NmCommand {
    ghost command = { ring_command_of };

    fn command(&self) -> RingCommand<u64> {
        let (dst, a, b, n) = (self.dst, self.a, self.b, self.n);
        match self.operation {
            NM_LOAD => RingCommand::Load { dst, n },
            NM_ADD => RingCommand::Add { dst, a, b },
            NM_SUB => RingCommand::Sub { dst, a, b },
            NM_MUL => RingCommand::Mul { dst, a, b },
            NM_NEG => RingCommand::Neg { dst, a },
            NM_DBL => RingCommand::Dbl { dst, a },
            NM_SQR => RingCommand::Sqr { dst, a },
            NM_INV => RingCommand::Inv { dst, a },
            NM_DIV => RingCommand::Div { dst, a, b },
            _ => RingCommand::Pow { dst, a, exp: n },
        }
    }
}

// Whether the command has an operation, and register numbers below `count`.
fn is_admitted(c: &NmCommand, count: usize) -> bool
    ensures { IsTrue result ↔ IsAdmittedBy count c.now }
{
    c.operation < OPERATIONS && commands_fit(&[c.command()], count)
}

// Whether each command has an operation, and register numbers below `count`.
pub(crate) fn are_admitted(commands: &[NmCommand], count: usize) -> bool
    ensures { IsTrue result ↔ All (IsAdmittedBy count) commands.now }
{
    commands.iter().all(|c| is_admitted(c, count))
}
