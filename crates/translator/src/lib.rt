// Circuits as programs for a machine of few registers (01, Register program).
#![tactic(auto)]

ghost use Rattle.std.specs.Prelude.{◌≡◌, IfOk};
ghost use Rattle.lines.specs.Refusal.{found_by, leaving};
ghost use Rattle.lines.specs.Checks.{first_found};
ghost use Rattle.translator.specs.TranslateCall.{is_limit, translate_checks, translating, paper_values as translated_values};

mod allocating;
mod last_use;
mod pressure;
mod program;
mod registers;
mod writing;

use circuit::checked::{Circuit, MAX_OUTPUTS, MAX_REFERENCES, accept};
use lines::{Reason, Refusal, Table, is_partial, refuse_if};
use program::translate_accepted;

// As many registers as a machine has at most.
pub const MAX_REGISTERS: usize = 1024;

// As many numbers as a lent program buffer has at least: four for each constant, input, gate and output.
pub const PROGRAM_NUMBERS: usize = 4 * (MAX_REFERENCES + MAX_OUTPUTS as usize);

// How many instructions the program has, and the circuit's need, 01's word for its register pressure.
#[derive(Clone, Copy, Debug, PartialEq, Eq)]
pub struct Translation {
    pub instructions: u32,
    pub need: u32,
}

// Refusal 9 does not apply.
fn is_limit(limit: u32) -> bool
    ensures { result ≡ is_limit limit }
{
    (1..=MAX_REGISTERS as u32).contains(&limit)
}

// The circuit of a call of `translate`, if no refusal applies before its need is known.
fn accept_translate<'a>(
    circuit: &'a [u32],
    limit: u32,
    program: &[u32],
) -> Result<Circuit<'a>, Refusal>
    ensures refusal { found_by result ≡ first_found (translate_checks circuit.now limit program.now) }
    ensures accepted { IfOk result (λ c. c ≡ circuit.now) }
{
    refuse_if(
        is_partial(circuit),
        Reason::WrongLength,
        Some(Table::Circuit),
    )?;
    refuse_if(
        program.len() < PROGRAM_NUMBERS,
        Reason::BufferTooShort,
        None,
    )?;
    let accepted = accept(circuit)?;
    refuse_if(!is_limit(limit), Reason::RegisterLimitOutOfRange, None)?;
    Ok(accepted)
}

// The program of the circuit, trimmed, for a machine with `limit` registers, over the front of the lent buffer.
pub fn translate(circuit: &[u32], limit: u32, program: &mut [u32]) -> Result<Translation, Refusal>
    ensures { leaving (translated_values result) program.new ≡ translating circuit.now limit program.old }
{
    let circuit = accept_translate(circuit, limit, program)?;
    translate_accepted(&circuit, limit, program)
}
