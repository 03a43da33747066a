// Circuits of AND and XOR gates as tables of three numbers a line (01, Circuits; Depth and critical count).
#![tactic(auto)]

ghost use Rattle.std.specs.Prelude.{◌≡◌, IfOk};
ghost use Rattle.lines.specs.Refusal.{found_by, leaving};
ghost use Rattle.lines.specs.Checks.{first_found};
ghost use Rattle.circuit.specs.EvaluateCall.{evaluate_checks, evaluating, paper_values as evaluated_values};
ghost use Rattle.circuit.specs.MeasureCall.{measuring, paper_values as measured_values};

pub mod checked;
mod checking;
mod copying;
mod critical;
mod depth;
mod evaluating;
mod reverse_depth;
mod table;
mod trimming;

use checking::accept;
pub use critical::DepthPair;
use critical::pair;
use evaluating::evaluate_into;
use lines::{Reason, Refusal, Table, is_partial, refuse_if};
use table::{Circuit, MAX_OUTPUTS};

// The circuit of a call of `evaluate`, if no refusal applies.
fn accept_evaluate<'a>(
    circuit: &'a [u32],
    inputs: &[u8],
    outputs: &[u8],
) -> Result<Circuit<'a>, Refusal>
    ensures refusal { found_by result ≡ first_found (evaluate_checks circuit.now inputs.now outputs.now) }
    ensures accepted { IfOk result (λ c. c ≡ circuit.now) }
{
    refuse_if(
        is_partial(circuit),
        Reason::WrongLength,
        Some(Table::Circuit),
    )?;
    refuse_if(
        outputs.len() < MAX_OUTPUTS as usize,
        Reason::BufferTooShort,
        None,
    )?;
    let accepted = accept(circuit)?;
    refuse_if(inputs.len() != accepted.inputs(), Reason::WrongLength, None)?;
    Ok(accepted)
}

// The bits that the circuit gives for the input bytes, one byte an output; and how many outputs there are.
pub fn evaluate(circuit: &[u32], inputs: &[u8], outputs: &mut [u8]) -> Result<u32, Refusal>
    ensures { leaving (evaluated_values result) outputs.new ≡ evaluating circuit.now inputs.now outputs.old }
{
    let circuit = accept_evaluate(circuit, inputs, outputs)?;
    evaluate_into(&circuit, inputs, outputs);
    Ok(circuit.outputs() as u32)
}

// The depth and the critical count of the circuit as it stands; dead gates count nowhere.
pub fn measure(circuit: &[u32]) -> Result<DepthPair, Refusal>
    ensures { measured_values result ≡ measuring circuit.now }
{
    Ok(pair(&accept(circuit)?))
}
