// What the calls on circuits give for a table.
ghost use Rattle.std.specs.Prelude.{◌≡◌, ◌+◌, ◌≤◌, length};
ghost use Rattle.circuit.specs.Circuit.{max_inputs};

use circuit::checked::{MAX_INPUTS, MAX_OUTPUTS};
use std::{array, io};

// One input byte more than any circuit asks for.
const PATTERN_BYTES: usize = MAX_INPUTS as usize + 1;

pub fn print_pair(rt: &impl Print, table: &[u32]) -> io::Result<()> {
    match circuit::measure(table) {
        Ok(pair) => print!(rt; " D {} N {}", pair.depth, pair.critical),
        Err(refusal) => print!(rt; " {refusal}"),
    }
}

fn print_bits(rt: &impl Print, bits: &[u8]) -> io::Result<()> {
    print!(rt; " ")?;
    for bit in bits {
        print!(rt; "{bit}")?;
    }
    Ok(())
}

fn print_evaluation(
    rt: &impl Print,
    table: &[u32],
    inputs: &[u8],
    outputs: &mut [u8],
) -> io::Result<()> {
    match circuit::evaluate(table, inputs, outputs) {
        Ok(count) => {
            let shown = (count as usize).min(outputs.len());
            print_bits(rt, &outputs[..shown])
        }
        Err(refusal) => print!(rt; " {refusal}"),
    }
}

// Pattern 0 has no byte that counts as 1, each later one has a third more of them; 200 is as good as 1.
pub fn pattern(number: usize) -> [u8; PATTERN_BYTES]
    ensures { max_inputs + 1 ≡ length result }
{
    array::from_fn(|i| if i % 3 < number { 200 } else { 0 })
}

// As many input bytes as the table's head asks for, which may say anything.
pub fn input_count(table: &[u32]) -> usize
    ensures { result ≤ max_inputs }
{
    table.first().copied().unwrap_or(0).min(MAX_INPUTS) as usize
}

// For each pattern; with one input byte too many; and with one output byte too few.
pub fn print_evaluations(rt: &impl Print, table: &[u32]) -> io::Result<()> {
    const OUTPUTS: usize = MAX_OUTPUTS as usize;
    let inputs = input_count(table);
    for number in 0..4 {
        print_evaluation(rt, table, &pattern(number)[..inputs], &mut [0u8; OUTPUTS])?;
    }
    print_evaluation(rt, table, &pattern(0)[..inputs + 1], &mut [0u8; OUTPUTS])?;
    print_evaluation(rt, table, &pattern(0)[..inputs], &mut [0u8; OUTPUTS - 1])
}
