// The critical count, and the pair (01, Depth and critical count, 4 and 5).
ghost use Rattle.std.specs.Prelude.{◌≡◌, ◌&&◌, ◌+◌, ◌-◌, ◌≤◌, eqb, ltb, length, take};
ghost use Rattle.lists.specs.First.{first};
ghost use Rattle.lines.specs.Calls.{over};
ghost use Rattle.circuit.specs.Circuit.{max_gates, max_depth, max_references, gate_of};
ghost use Rattle.circuit.specs.Table.{refs, decode};
ghost use Rattle.circuit.specs.Depth.{is_counted, depths, circuit_depth};
ghost use Rattle.circuit.specs.ReverseDepth.{reverse_depths};
ghost use Rattle.circuit.specs.Critical.{critical_count, pair_of};

use crate::depth::{depths, is_counted, output_depth};
use crate::reverse_depth::{mark_outputs, raise_operands};
use crate::table::{Circuit, Gate, MAX_REFERENCES, SMALL_REFERENCES};

// 01's pair (D, N): the depth and the critical count. Of two pairs the lower is the one of the lower depth, then of the fewer critical gates.
#[derive(Clone, Copy, Debug, PartialEq, Eq, PartialOrd, Ord)]
pub struct DepthPair {
    pub depth: u32,
    pub critical: u32,
}

// 1 for a gate that is critical, else 0, by its depth and its reverse depth, where the circuit is `deepest` deep.
fn critical_here(g: Gate, depth: u32, reverse: u32, deepest: u32) -> u32
    requires depth_le_max_depth { depth ≤ max_depth }
    requires reverse_bound { reverse ≤ max_gates + 1 }
    ensures value { result ≡ first (is_counted (gate_of g) && (ltb 0 reverse && eqb (depth + (reverse - 1)) deepest)) 1 0 }
    ensures upper_bound { result ≤ 1 }
{
    if reverse == 0 {
        return 0;
    }
    (is_counted(g) & (depth + (reverse - 1) == deepest)) as u32
}

// The critical count, where d begins with the depths, and the reverse depths over the front of u: who trims the circuit afterwards need not
// compute them again. One pass does both, since a gate's reverse depth is settled when its turn comes.
pub fn critical_with_reverse_depths(
    circuit: &Circuit<'_>,
    d: &[u32],
    deepest: u32,
    u: &mut [u32],
) -> u32
    requires t_in_bounds { refs circuit.now ≤ length d.now }
    requires t_in_bounds_2 { refs circuit.now ≤ length u.old }
    requires d_value { take (refs circuit.now) d.now ≡ depths (decode circuit.now) }
    requires deepest_value { deepest ≡ circuit_depth (decode circuit.now) }
    ensures value { result ≡ critical_count (decode circuit.now) }
    ensures u_after { u.new ≡ over (reverse_depths (decode circuit.now)) u.old }
{
    mark_outputs(circuit, u);
    let circuit = Circuit::of(circuit.table());
    let first = circuit.first_gate() as usize;
    let mut count: u32 = 0;
    for i in (0..circuit.gates()).rev() {
        let g = circuit.gate(i);
        count += critical_here(g, d[first + i], u[first + i], deepest);
        raise_operands(g, first + i, u);
    }
    count
}

// The circuit's pair, dead gates counting nowhere.
pub fn pair(circuit: &Circuit<'_>) -> DepthPair
    ensures { result ≡ pair_of (decode circuit.now) }
{
    if circuit.references() <= SMALL_REFERENCES {
        pair_within::<SMALL_REFERENCES>(circuit)
    } else {
        pair_within::<MAX_REFERENCES>(circuit)
    }
}

// The same of a circuit of at most N references.
fn pair_within<const N: usize>(circuit: &Circuit<'_>) -> DepthPair
    requires { (refs circuit.now ≤ N) × (N ≤ max_references) }
    ensures { result ≡ pair_of (decode circuit.now) }
{
    let mut d = [0u32; N];
    let mut u = [0u32; N];
    pair_with_reverse_depths(circuit, &mut d, &mut u)
}

// The same, with the depths over the front of d, and the reverse depths over that of u.
pub fn pair_with_reverse_depths(circuit: &Circuit<'_>, d: &mut [u32], u: &mut [u32]) -> DepthPair
    requires t_in_bounds { refs circuit.now ≤ length d.old }
    requires t_in_bounds_2 { refs circuit.now ≤ length u.old }
    ensures value { result ≡ pair_of (decode circuit.now) }
    ensures d_after { d.new ≡ over (depths (decode circuit.now)) d.old }
    ensures u_after { u.new ≡ over (reverse_depths (decode circuit.now)) u.old }
{
    depths(circuit, d);
    let deepest = output_depth(circuit, d);
    let critical = critical_with_reverse_depths(circuit, d, deepest, u);
    DepthPair {
        depth: deepest,
        critical,
    }
}
