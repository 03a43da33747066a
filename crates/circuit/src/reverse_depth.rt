// Live and above in one pass from the last gate to the first: each reference's reverse depth (01, Circuits, 7; Depth and critical
// count, 3). As in the definition a reverse depth is 0 where a reference isn't live: with an Option every law would say besides how one becomes
// the other.
ghost use Rattle.std.specs.Prelude.{◌≡◌, ◌+◌, ◌≤◌, ◌<◌, length, get_or, replicate};
ghost use Rattle.lines.specs.Calls.{over};
ghost use Rattle.circuit.specs.Circuit.{max_gates, gate_of};
ghost use Rattle.circuit.specs.Table.{refs, decode};
ghost use Rattle.circuit.specs.ReverseDepth.{mark_outputs, raise, raise_operands, reverse_depths};

use crate::depth::{clear, plus_counted};
use crate::table::{Circuit, Gate};

// Place v raised to x, where it is lower.
fn raise_place(u: &mut [u32], v: usize, x: u32)
    requires { v < length u.old }
    ensures { u.new ≡ raise u.old v x }
{
    u[v] = u[v].max(x);
}

// What gate g, of place `own`, makes of its operands if it is live.
pub fn raise_operands(g: Gate, own: usize, u: &mut [u32])
    requires own_in_bounds { own < length u.old }
    requires left_in_bounds { (g.left < length u.old) × (g.right < length u.old) }
    requires own_bound { get_or u.old own 0 ≤ max_gates + 1 }
    ensures { u.new ≡ raise_operands own (gate_of g) u.old }
{
    if u[own] == 0 {
        return;
    }
    let x = plus_counted(g, u[own]);
    raise_place(u, g.left as usize, x);
    raise_place(u, g.right as usize, x);
}

// Every output is live, so far with nothing above it; so far nothing else is.
pub fn mark_outputs(circuit: &Circuit<'_>, u: &mut [u32])
    requires { refs circuit.now ≤ length u.old }
    ensures { u.new ≡
        over (mark_outputs (decode circuit.now).outputs (replicate (refs circuit.now) 0)) u.old }
{
    clear(u, circuit.references());
    let circuit = Circuit::of(circuit.table());
    for i in 0..circuit.outputs() {
        u[circuit.output(i)] = 1;
    }
}

// The reverse depth of every reference, over the front of u: from the last gate to the first, so that what is above a gate is settled
// before its operands are raised.
pub fn reverse_depths(circuit: &Circuit<'_>, u: &mut [u32])
    requires { refs circuit.now ≤ length u.old }
    ensures { u.new ≡ over (reverse_depths (decode circuit.now)) u.old }
{
    mark_outputs(circuit, u);
    let circuit = Circuit::of(circuit.table());
    let first = circuit.first_gate() as usize;
    for i in (0..circuit.gates()).rev() {
        raise_operands(circuit.gate(i), first + i, u);
    }
}
