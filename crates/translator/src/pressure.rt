// The need, 01's word for the register pressure, counted in one pass over the gates (01, Register program, 10).
ghost use Rattle.std.specs.Prelude.{◌≡◌, false, ◌||◌, ℕ, ◌+◌, ◌<◌, ◌≤◌, eqb, set, get_or};
ghost use Rattle.circuit.specs.Circuit.{max_references};
ghost use Rattle.circuit.specs.Table.{gates, decode};
ghost use Rattle.translator.specs.LiveRange.{is_used_from};
ghost use Rattle.translator.specs.Actions.{is_unloaded};
ghost use Rattle.translator.specs.Need.{need as need_of};
ghost use Rattle.translator.specs.Pressure.{one_if, pressure_after};

use crate::last_use::LiveRanges;
use circuit::checked::{Gate, MAX_REFERENCES};
use std::mem::take;

// How many of a gate's operands are marked as unloaded, and so are values that it loads. It unmarks both.
fn arrivals(gate: Gate, unloaded: &mut [bool; MAX_REFERENCES]) -> u32
    requires { (gate.left < max_references) × (gate.right < max_references) }
    ensures value { result ≡ one_if (get_or unloaded.old gate.left false) + one_if (get_or (set unloaded.old gate.left false) gate.right false) }
    ensures unmarked { unloaded.new ≡ set (set unloaded.old gate.left false) gate.right false }
{
    let left = take(&mut unloaded[gate.left as usize]);
    let right = take(&mut unloaded[gate.right as usize]);
    left as u32 + right as u32
}

// How many of its operands a gate is not the last to use, where `number` is the gate's, counted from 1.
fn kept_operands(ranges: &LiveRanges<'_>, gate: Gate, number: u16) -> u32
    requires operands_bound { (gate.left < max_references) × (gate.right < max_references) }
    requires number_bound { number ≤ gates ranges.now.circuit }
    ensures { result ≡ one_if (eqb gate.left gate.right || is_used_from (decode ranges.now.circuit) number gate.left)
        + one_if (is_used_from (decode ranges.now.circuit) number gate.right) }
{
    let (left, right) = ranges.kept(gate, number);
    left as u32 + right as u32
}

// The most values held just before or just after a gate's operation. What is held just after one is held before the next one too, so
// that only the last gate's is looked at by itself.
fn most_held(ranges: &LiveRanges<'_>, unloaded: &mut [bool; MAX_REFERENCES]) -> u32
    requires { (v : ℕ) → get_or unloaded.old v false ≡ is_unloaded (decode ranges.now.circuit) 0 v }
    ensures { result ≡ (pressure_after (decode ranges.now.circuit) (gates ranges.now.circuit)).most }
{
    let mut held = 0;
    let mut most: u32 = 0;
    for i in 0..ranges.circuit.gates() {
        let gate = ranges.circuit.gate(i);
        let before = held + arrivals(gate, unloaded);
        most = most.max(before);
        held = before + kept_operands(ranges, gate, i as u16 + 1) - 1;
    }
    most.max(held)
}

// The need, counted in one pass. Constants and inputs are marked as unloaded at first: no gate has used one.
pub fn need(ranges: &LiveRanges<'_>) -> u32
    ensures { result ≡ need_of (decode ranges.now.circuit) }
{
    let mut unloaded = [false; MAX_REFERENCES];
    unloaded[..ranges.circuit.first_gate() as usize].fill(true);
    most_held(ranges, &mut unloaded).max(ranges.distinct)
}
