// The plain evaluator: one array holds the bit of each reference, those of the constants and inputs in front.
ghost use Rattle.std.specs.Prelude.{◌≡◌, ◌≤◌, length, take};
ghost use Rattle.lines.specs.Calls.{over};
ghost use Rattle.circuit.specs.Circuit.{first_gate, kind_number};
ghost use Rattle.circuit.specs.Table.{inputs, outputs, refs, decode};
ghost use Rattle.circuit.specs.Fold.{at_outputs};
ghost use Rattle.circuit.specs.Evaluation.{Applied, bit_of, start_bits, bits_from, evaluate};

use crate::table::{CONSTANTS, Circuit, Kind, MAX_REFERENCES};
use std::ops::{BitAnd, BitXor};

fn bit_of(byte: u8) -> u8
    ensures { result ≡ bit_of byte }
{
    (byte != 0) as u8
}

impl Kind {
    // What a gate of this kind makes of its operands' bits, of one assignment or of many side by side.
    pub fn apply<T: BitAnd<Output = T> + BitXor<Output = T>>(self, a: T, b: T) -> T
        requires { T.can_bitand a b × T.can_bitxor a b }
        ensures { Applied T.bitxor_gives T.bitand_gives self a b result }
    {
        match self {
            Kind::Xor => a ^ b,
            Kind::And => a & b,
        }
    }
}

fn load_inputs(bytes: &[u8], bits: &mut [u8])
    requires { first_gate (length bytes.now) ≤ length bits.old }
    ensures { take (first_gate (length bytes.now)) bits.new ≡ start_bits bytes.now }
{
    bits[0] = 0;
    bits[1] = 1;
    for (i, byte) in bytes.iter().enumerate() {
        bits[i + CONSTANTS as usize] = bit_of(*byte);
    }
}

fn run_gates(circuit: &Circuit<'_>, bits: &mut [u8])
    requires { refs circuit.now ≤ length bits.old }
    ensures { take (refs circuit.now) bits.new ≡ bits_from (decode circuit.now) bits.old }
{
    let first = circuit.first_gate() as usize;
    for i in 0..circuit.gates() {
        let g = circuit.gate(i);
        bits[first + i] = g.kind.apply(bits[g.left as usize], bits[g.right as usize]);
    }
}

fn emit_outputs(circuit: &Circuit<'_>, bits: &[u8], out: &mut [u8])
    requires t_in_bounds { refs circuit.now ≤ length bits.now }
    requires t_in_bounds_2 { outputs circuit.now ≤ length out.old }
    ensures { out.new ≡ over (at_outputs 0 (decode circuit.now) (take (refs circuit.now) bits.now)) out.old }
{
    for i in 0..circuit.outputs() {
        out[i] = bits[circuit.output(i)];
    }
}

// The outputs' bits at the front of `out`.
pub fn evaluate_into(circuit: &Circuit<'_>, bytes: &[u8], out: &mut [u8])
    requires bytes_len { length bytes.now ≡ inputs circuit.now }
    requires t_in_bounds { outputs circuit.now ≤ length out.old }
    ensures { out.new ≡ over (evaluate (decode circuit.now) bytes.now) out.old }
{
    let mut all = [0u8; MAX_REFERENCES];
    let bits = &mut all[..circuit.references()];
    load_inputs(bytes, bits);
    run_gates(circuit, bits);
    emit_outputs(circuit, bits, out);
}
