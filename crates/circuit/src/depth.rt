// Depths of references, and the depth of a circuit (01, Depth and critical count, 1 and 2; 02, 2026-01, 2026-04 and 2026-06).
ghost use Rattle.std.specs.Prelude.{◌≡◌, ◌+◌, ◌≤◌, max, length, take, replicate};
ghost use Rattle.lines.specs.Calls.{over};
ghost use Rattle.circuit.specs.Circuit.{max_depth, first_gate, gate_of};
ghost use Rattle.circuit.specs.Table.{inputs, gates, refs, decode};
ghost use Rattle.circuit.specs.Depth.{is_counted, plus_counted, set_levels, start_levels, depths, circuit_depth};
ghost use Rattle.circuit.specs.MultiplicativeDepth.{contribution};

use crate::table::{CONSTANTS, Circuit, Gate, Kind};

// Whether a gate counts for depth, above and the critical count: an AND with no constant on either side.
pub fn is_counted(g: Gate) -> bool
    ensures { result ≡ is_counted (gate_of g) }
{
    (g.kind == Kind::And) & !((g.left < CONSTANTS) | (g.right < CONSTANTS))
}

// What a gate contributes to its own depth: 1 if it counts, else 0.
fn contribution(g: Gate) -> u32
    ensures { result ≡ contribution (gate_of g) }
{
    is_counted(g) as u32
}

// One more for a gate that counts, its contribution first. Reverse depths go by it, which are at most the number of gates and 1.
pub fn plus_counted(g: Gate, x: u32) -> u32
    requires { x ≤ max_depth + 1 }
    ensures { result ≡ plus_counted (gate_of g) x }
{
    contribution(g) + x
}

// A gate's depth, from those of its operands, in the steps of source 003, section 2.1: first its own contribution, then the larger of these,
// then the two added.
fn gate_depth(g: Gate, a: u32, b: u32) -> u32
    requires a_le_max_depth { a ≤ max_depth }
    requires b_le_max_depth { b ≤ max_depth }
    ensures { result ≡ plus_counted (gate_of g) (max a b) }
{
    contribution(g) + a.max(b)
}

// Zeros in the first n places.
pub fn clear(d: &mut [u32], n: usize)
    requires { n ≤ length d.old }
    ensures { d.new ≡ over (replicate n 0) d.old }
{
    d[..n].fill(0);
}

// Each starting level in the place of its input.
fn set_levels(circuit: &Circuit<'_>, d: &mut [u32])
    requires { first_gate (inputs circuit.now) ≤ length d.old }
    ensures { d.new ≡ set_levels (decode circuit.now).starts d.old }
{
    let circuit = Circuit::of(circuit.table());
    for i in 0..circuit.starts() {
        let start = circuit.start(i);
        d[start.input as usize] = start.level;
    }
}

// The depths of the constants and inputs, which are their starting levels, over the front of d.
fn start_levels(circuit: &Circuit<'_>, d: &mut [u32])
    requires { first_gate (inputs circuit.now) ≤ length d.old }
    ensures { d.new ≡ over (start_levels (decode circuit.now)) d.old }
{
    clear(d, circuit.first_gate() as usize);
    set_levels(circuit, d);
}

// The depths of the gates from gate `start` on, where d begins with those of the references before them.
pub fn depths_from(circuit: &Circuit<'_>, start: usize, d: &mut [u32])
    requires t_in_bounds { refs circuit.now ≤ length d.old }
    requires start_bound { start ≤ gates circuit.now }
    requires d_value { take (first_gate (inputs circuit.now) + start) d.old ≡ take (first_gate (inputs circuit.now) + start) (depths (decode circuit.now)) }
    ensures { d.new ≡ over (depths (decode circuit.now)) d.old }
{
    let circuit = Circuit::of(circuit.table());
    let first = circuit.first_gate() as usize;
    for i in start..circuit.gates() {
        let g = circuit.gate(i);
        d[first + i] = gate_depth(g, d[g.left as usize], d[g.right as usize]);
    }
}

// The depth of every reference, over the front of d.
pub fn depths(circuit: &Circuit<'_>, d: &mut [u32])
    requires { refs circuit.now ≤ length d.old }
    ensures { d.new ≡ over (depths (decode circuit.now)) d.old }
{
    start_levels(circuit, d);
    depths_from(circuit, 0, d);
}

// The largest depth of an output, where d begins with the depths.
pub fn output_depth(circuit: &Circuit<'_>, d: &[u32]) -> u32
    requires t_in_bounds { refs circuit.now ≤ length d.now }
    requires d_value { take (refs circuit.now) d.now ≡ depths (decode circuit.now) }
    ensures { result ≡ circuit_depth (decode circuit.now) }
{
    let mut deepest: u32 = 0;
    for i in 0..circuit.outputs() {
        deepest = deepest.max(d[circuit.output(i)]);
    }
    deepest
}
