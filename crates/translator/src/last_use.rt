// The last use of each reference, which ends its live range (01, Register program, 9).
ghost use Rattle.std.specs.Prelude.{◌≡◌, ℕ, ◌||◌, ◌<◌, ◌≤◌, eqb, replicate, get_or};
ghost use Rattle.circuit.specs.Circuit.{max_references};
ghost use Rattle.circuit.specs.Table.{gates, gate_lines, decode};
ghost use Rattle.circuit.specs.Trim.{trim};
ghost use Rattle.translator.specs.LiveRange.{is_used_from};
ghost use Rattle.translator.specs.LastUse.{last_gate, last_use, count_distinct};

use circuit::checked::{Circuit, Gate, MAX_REFERENCES};

// A trimmed circuit, the last use of each of its references, and how many different references its outputs are. A last use is the number of a
// gate, counted from 1, or one more than there are gates for an output, and 0 is for none, as `last_use` of the specs has it: with an Option
// there, every law would say besides how one becomes the other. As many gates as there may be can be counted in two bytes. The array is lent,
// so that nobody copies it with the struct.
#[derive(Drop)]
pub struct LiveRanges<'a> {
    pub circuit: Circuit<'a>,
    last: &'a [u16; MAX_REFERENCES],
    pub distinct: u32,
    ghost trimmed: { trim (decode circuit) ≡ decode circuit },
    ghost last_uses: { (v : ℕ) → get_or last.now v 0 ≡ last_use (decode circuit) v },
    ghost distinct_outputs: { distinct ≡ count_distinct (decode circuit).outputs },
}

impl<'a> LiveRanges<'a> {
    // The live ranges of a trimmed circuit.
    pub fn new(circuit: Circuit<'a>, last: &'a mut [u16; MAX_REFERENCES]) -> Self
        requires trimmed { trim (decode circuit) ≡ decode circuit }
        requires empty { last.old ≡ replicate max_references 0 }
        ensures { result.circuit ≡ circuit.entry }
    {
        mark_operands(&circuit, last);
        let distinct = mark_outputs(&circuit, last);
        LiveRanges {
            circuit,
            last,
            distinct,
        }
    }

    // Whether v is used behind the gate of that number, counted from 1. Counted from 0, that is from the next gate on.
    fn is_used_behind(&self, number: u16, v: u32) -> bool
        requires v_lt_max_references { v < max_references }
        requires number_bound { number ≤ gates self.now.circuit }
        ensures { result ≡ is_used_from (decode self.now.circuit) number v }
    {
        number < self.last[v as usize]
    }

    // Whether each operand of a gate is used behind it too, and so is kept, where `number` is the gate's, counted from 1. Two equal ones are one
    // value, and the right one stands for it.
    pub fn kept(&self, gate: Gate, number: u16) -> (bool, bool)
        requires operands_bound { (gate.left < max_references) × (gate.right < max_references) }
        requires number_bound { number ≤ gates self.now.circuit }
        ensures left { result.0 ≡ (eqb gate.left gate.right || is_used_from (decode self.now.circuit) number gate.left) }
        ensures right { result.1 ≡ is_used_from (decode self.now.circuit) number gate.right }
    {
        let left = (gate.left == gate.right) | self.is_used_behind(number, gate.left);
        let right = self.is_used_behind(number, gate.right);
        (left, right)
    }
}

// The last gate that uses each reference, counted from 1.
fn mark_operands(circuit: &Circuit<'_>, last: &mut [u16; MAX_REFERENCES])
    requires { (v : ℕ) → get_or last.old v 0 ≡ 0 }
    ensures { (v : ℕ) → get_or last.new v 0 ≡ last_gate (gate_lines circuit.now) (gates circuit.now) v }
{
    for i in 0..circuit.gates() {
        let gate = circuit.gate(i);
        let number = i as u16 + 1;
        last[gate.left as usize] = number;
        last[gate.right as usize] = number;
    }
}

// Outputs are used behind all gates. One that is marked already is the same reference as a later one, and is not counted.
fn mark_outputs(circuit: &Circuit<'_>, last: &mut [u16; MAX_REFERENCES]) -> u32
    requires { (v : ℕ) → get_or last.old v 0 ≡ last_gate (gate_lines circuit.now) (gates circuit.now) v }
    ensures value { result ≡ count_distinct (decode circuit.now).outputs }
    ensures last_uses { (v : ℕ) → get_or last.new v 0 ≡ last_use (decode circuit.now) v }
{
    let number = circuit.gates() as u16 + 1;
    let mut distinct = 0;
    for i in (0..circuit.outputs()).rev() {
        let reference = circuit.output(i);
        if last[reference] != number {
            last[reference] = number;
            distinct += 1;
        }
    }
    distinct
}
