// Trimming (01, Circuits, 8): the gates that are live, renumbered, as a table.
ghost use Rattle.std.specs.Prelude.{◌≡◌, [], ◌∷◌, map, ℕ, ◌+◌, ◌*◌, ◌≤◌, ◌<◌, length, take, get_or};
ghost use Rattle.std.proofs.lemmas.List.Edits.{sets};
ghost use Rattle.lines.specs.Calls.{over};
ghost use Rattle.circuit.specs.Circuit.{max_references, first_gate, references};
ghost use Rattle.circuit.specs.Table.{inputs, gates, outputs, refs, gates_from, table_end, closing_line, decode, encode_lines};
ghost use Rattle.circuit.specs.Depth.{depths};
ghost use Rattle.circuit.specs.ReverseDepth.{reverse_depths};
ghost use Rattle.circuit.specs.Trim.{new_number, old_number, renumbered_gate, trimmed_gates, trimmed_outputs, trim, trim_of};

use crate::reverse_depth::reverse_depths;
use crate::table::{CLOSING, Circuit, MAX_REFERENCES, SMALL_REFERENCES};
use lines::checked::write_row;

// A table's head and starting lines, over the front of out. By a loop: with `copy_over` the archive for C would ask for `memmove`, which callers
// without a C library need not have.
fn copy_front(front: &[u32], out: &mut [u32])
    requires { length front.now ≤ length out.old }
    ensures { out.new ≡ over front.now out.old }
{
    for (i, &number) in front.iter().enumerate() {
        out[i] = number;
    }
}

// The new numbers of the constants and inputs, which all stay.
fn name_inputs(circuit: &Circuit<'_>, names: &mut [u32])
    requires { refs circuit.now ≤ length names.old }
    ensures { (v : ℕ) → v < first_gate (inputs circuit.now) → get_or names.new v 0 ≡ new_number (decode circuit.now) v }
{
    let front = &mut names[..circuit.first_gate() as usize];
    for (v, name) in front.iter_mut().enumerate() {
        *name = v as u32;
    }
}

// Gate i's line, with the new numbers of its operands. Here and below `at` is the place that `write_row` asks for, and that `sets` tells.
fn write_gate(circuit: &Circuit<'_>, i: usize, names: &[u32], out: &mut [u32], at: usize)
    requires i_bound { i < gates circuit.now }
    requires t_in_bounds { refs circuit.now ≤ length names.now }
    requires by_index { (v : ℕ) → v < first_gate (inputs circuit.now) + i → get_or names.now v 0 ≡ new_number (decode circuit.now) v }
    requires at_in_bounds { at + 3 ≤ length out.old }
    ensures { out.new ≡ sets out.old at (encode_lines (renumbered_gate (decode circuit.now) i ∷ [])) }
{
    let g = circuit.gate(i);
    write_row(
        out,
        at,
        u32::from(g.kind),
        names[g.left as usize],
        names[g.right as usize],
    );
}

// The gate lines of the trimmed table, and the new number of each reference, where u begins with the reverse depths. The result is how many
// gates are kept.
fn write_gates(circuit: &Circuit<'_>, u: &[u32], names: &mut [u32], out: &mut [u32]) -> u32
    requires t_in_bounds { refs circuit.now ≤ length u.now }
    requires u_value { take (refs circuit.now) u.now ≡ reverse_depths (decode circuit.now) }
    requires t_in_bounds_2 { refs circuit.now ≤ length names.old }
    requires t_in_bounds_3 { table_end circuit.now ≤ length out.old }
    ensures value { result ≡ length (trimmed_gates (decode circuit.now)) }
    ensures by_index { (v : ℕ) → v < refs circuit.now → get_or names.new v 0 ≡ new_number (decode circuit.now) v }
    ensures out_after { out.new ≡ sets out.old (gates_from circuit.now) (encode_lines (trimmed_gates (decode circuit.now))) }
{
    name_inputs(circuit, names);
    let circuit = Circuit::of(circuit.table());
    let from = circuit.gates_from();
    let first = circuit.first_gate();
    let mut kept: u32 = 0;
    for i in 0..circuit.gates() {
        let own = first as usize + i;
        names[own] = first + kept;
        let live = 0 < u[own];
        if live {
            write_gate(&circuit, i, names, out, from + 3 * kept as usize);
        }
        // Counted behind the branch, not in it, where the compiler would make two loops of one, the inner for the gates that are dropped.
        kept += live as u32;
    }
    kept
}

// The closing lines of the trimmed table, from `at` on. The result is the place behind them, where it ends.
fn write_closings(circuit: &Circuit<'_>, names: &[u32], out: &mut [u32], at: usize) -> usize
    requires t_in_bounds { refs circuit.now ≤ length names.now }
    requires by_index { (v : ℕ) → v < refs circuit.now → get_or names.now v 0 ≡ new_number (decode circuit.now) v }
    requires t_in_bounds_2 { at + 3 * outputs circuit.now ≤ length out.old }
    ensures out_after { out.new ≡ sets out.old at (encode_lines (map closing_line (trimmed_outputs (decode circuit.now)))) }
    ensures value { result ≡ at + 3 * outputs circuit.now }
{
    let circuit = Circuit::of(circuit.table());
    let outputs = circuit.outputs();
    for i in 0..outputs {
        write_row(out, at + 3 * i, CLOSING, names[circuit.output(i)], 0);
    }
    at + 3 * outputs
}

// The trimmed table, over the front of out. It is no longer than the table itself. The result is where it ends.
pub fn trim(circuit: &Circuit<'_>, out: &mut [u32]) -> usize
    requires { table_end circuit.now ≤ length out.old }
    ensures out_after { out.new ≡ over (trim_of circuit.now) out.old }
    ensures value { result ≡ length (trim_of circuit.now) }
{
    if circuit.references() <= SMALL_REFERENCES {
        trim_within::<SMALL_REFERENCES>(circuit, out)
    } else {
        trim_within::<MAX_REFERENCES>(circuit, out)
    }
}

// The same of a circuit of at most N references.
fn trim_within<const N: usize>(circuit: &Circuit<'_>, out: &mut [u32]) -> usize
    requires size_bound { N ≤ max_references }
    requires references_bound { refs circuit.now ≤ N }
    requires out_in_bounds { table_end circuit.now ≤ length out.old }
    ensures out_after { out.new ≡ over (trim_of circuit.now) out.old }
    ensures value { result ≡ length (trim_of circuit.now) }
{
    let mut u = [0u32; N];
    let mut names = [0u32; N];
    reverse_depths(circuit, &mut u);
    trim_by_reverse_depths(circuit, &u, &mut names, out)
}

// The same, where u begins with the reverse depths. Of `names`, where references find their new numbers, nothing is asked before or after. The
// starting lines are copied, with the head, which is written anew when it is known how many gates are kept.
pub fn trim_by_reverse_depths(
    circuit: &Circuit<'_>,
    u: &[u32],
    names: &mut [u32],
    out: &mut [u32],
) -> usize
    requires t_in_bounds { refs circuit.now ≤ length u.now }
    requires u_value { take (refs circuit.now) u.now ≡ reverse_depths (decode circuit.now) }
    requires t_in_bounds_2 { refs circuit.now ≤ length names.old }
    requires t_in_bounds_3 { table_end circuit.now ≤ length out.old }
    ensures out_after { out.new ≡ over (trim_of circuit.now) out.old }
    ensures value { result ≡ length (trim_of circuit.now) }
{
    let front = circuit.front();
    copy_front(front, out);
    let kept = write_gates(circuit, u, names, out);
    let end = write_closings(circuit, names, out, front.len() + 3 * kept as usize);
    out[1] = kept;
    end
}

// The depths of the trimmed circuit, where d begins with those of the circuit and u with the reverse depths, over the front of `out`: what is
// kept keeps its depth, so that none has to be worked out again.
pub fn trim_depths(circuit: &Circuit<'_>, u: &[u32], d: &[u32], out: &mut [u32])
    requires t_in_bounds { refs circuit.now ≤ length u.now }
    requires t_in_bounds_2 { refs circuit.now ≤ length d.now }
    requires t_in_bounds_3 { refs circuit.now ≤ length out.old }
    requires u_value { take (refs circuit.now) u.now ≡ reverse_depths (decode circuit.now) }
    requires d_value { take (refs circuit.now) d.now ≡ depths (decode circuit.now) }
    ensures { take (references (trim (decode circuit.now))) out.new ≡ depths (trim (decode circuit.now)) }
{
    let first = circuit.first_gate() as usize;
    let mut next: usize = 0;
    for v in 0..circuit.references() {
        out[next] = d[v];
        if (v < first) | (0 < u[v]) {
            next += 1;
        }
    }
}

// The reference whose number in the trimmed circuit is v; one beyond the circuit if there is none.
pub fn old_number(circuit: &Circuit<'_>, v: u32) -> u32
    ensures { result ≡ old_number (decode circuit.now) v }
{
    if circuit.references() <= SMALL_REFERENCES {
        old_number_within::<SMALL_REFERENCES>(circuit, v)
    } else {
        old_number_within::<MAX_REFERENCES>(circuit, v)
    }
}

// The same in a circuit of at most N references.
fn old_number_within<const N: usize>(circuit: &Circuit<'_>, v: u32) -> u32
    requires size_bound { N ≤ max_references }
    requires references_bound { refs circuit.now ≤ N }
    ensures { result ≡ old_number (decode circuit.now) v }
{
    let mut u = [0u32; N];
    reverse_depths(circuit, &mut u);
    old_by_reverse_depths(circuit, &u, v)
}

// The same, where u begins with the reverse depths.
fn old_by_reverse_depths(circuit: &Circuit<'_>, u: &[u32], v: u32) -> u32
    requires t_in_bounds { refs circuit.now ≤ length u.now }
    requires u_value { take (refs circuit.now) u.now ≡ reverse_depths (decode circuit.now) }
    ensures { result ≡ old_number (decode circuit.now) v }
{
    let first = circuit.first_gate();
    if v < first {
        return v;
    }
    let refs = circuit.references() as u32;
    let mut next = first;
    for w in first..refs {
        // No processor foresees which references are live, so no branch tells them apart.
        next += (0 < u[w as usize]) as u32;
        if v < next {
            return w;
        }
    }
    refs
}
