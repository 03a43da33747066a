// Replacement (01, Sites, 9 to 11): the table of the replaced circuit, line by line.
ghost use Rattle.std.specs.Prelude.{◌≡◌, ℕ, true, false, ◌+◌, ◌*◌, ◌≤◌, ◌<◌, length};
ghost use Rattle.std.proofs.lemmas.List.Edits.{sets};
ghost use Rattle.lines.specs.Calls.{over};
ghost use Rattle.circuit.specs.Circuit.{first_gate, max_references, max_table};
ghost use Rattle.circuit.specs.Path.{is_gate};
ghost use Rattle.circuit.specs.Table.{outputs, gates_from, decode, encode};
ghost use Rattle.rules.specs.Rule.{max_holes, max_rights};
ghost use Rattle.rules.specs.Remembered.{said};
ghost use Rattle.rewriting.specs.Replacement.{instance_of, renumber, front_lines, rows_of, renamed_lines, renumbered_closings, replace, AllBound, BoundBelow, OperandsBelow};
ghost use Rattle.rewriting.specs.Verdict.{is_too_large};

use circuit::checked::{CLOSING, Circuit, copy_over};
use lines::checked::write_row;
use rules::checked::{Bindings, Rule};

// What references become, of those below a limit.
trait Renaming {
    ghost limit: { Self → ℕ };

    ghost image: { Self → ℕ → ℕ };

    fn rename(&self, v: u32) -> u32
        requires { v < limit self.now }
        ensures { result ≡ image self.now v };
}

// References of a right side become those of the circuit, where `base` is the reference of that side's first gate.
#[derive(Clone, Copy)]
struct Instance<'a> {
    base: u32,
    gate: u32,
    bindings: &'a Bindings,
    ghost base_limit: { base ≤ first_gate max_holes },
    ghost gate_limit: { gate < max_references },
    ghost all_bound: { AllBound base bindings.now },
}

impl Renaming for Instance<'_> {
    ghost limit = { λ s. s.base + max_rights };

    ghost image = { λ s. instance_of s.base s.gate s.bindings.now };

    #[tactic(auto, unfolding(crate::specs::Replacement::instance_of))]
    fn rename(&self, r: u32) -> u32 {
        if r < self.base {
            return self.bindings[r as usize] - 1;
        }
        self.gate + (r - self.base)
    }
}

// References of the circuit, where the site's gate becomes `closing`, and `count` gates take its place.
#[derive(Clone, Copy)]
struct Renumbering {
    gate: u32,
    closing: u32,
    count: u32,
    ghost count_limit: { count ≤ max_rights },
}

impl Renaming for Renumbering {
    ghost limit = { λ _. max_references };

    ghost image = { λ s. renumber s.gate s.closing s.count };

    #[tactic(auto, unfolding(crate::specs::Replacement::renumber))]
    fn rename(&self, v: u32) -> u32 {
        if v < self.gate {
            return v;
        }
        if v == self.gate {
            return self.closing;
        }
        v - 1 + self.count
    }
}

// The head, for so many gates, and the starting lines, as they are, up to where the gate lines begin.
fn write_front(c: &Circuit<'_>, gates: u32, out: &mut [u32])
    requires { gates_from c.now ≤ length out.old }
    ensures { out.new ≡ over (front_lines (decode c.now) gates) out.old }
{
    copy_over(c.front(), out);
    out[1] = gates;
}

// The gates whose lines `rows` has, renamed, from `at` on, the place that `write_row` asks for. The result is the place behind them.
fn write_gates<R: Renaming>(rows: &[u32], renaming: &R, out: &mut [u32], at: usize) -> usize
    requires operands { OperandsBelow (R.limit renaming.now) (rows_of rows.now) }
    requires room { at + 3 * length (rows_of rows.now) ≤ length out.old }
    ensures out_after { out.new ≡ sets out.old at (renamed_lines (R.image renaming.now) (rows_of rows.now)) }
    ensures value { result ≡ at + 3 * length (rows_of rows.now) }
{
    let mut end = at;
    for row in rows.chunks_exact(3) {
        let left = renaming.rename(row[1]);
        let right = renaming.rename(row[2]);
        write_row(out, end, row[0], left, right);
        end += 3;
    }
    end
}

// The closing lines, their references renumbered, from `at` on. The result is the place behind them.
fn write_closings(c: &Circuit<'_>, s: &Renumbering, out: &mut [u32], at: usize) -> usize
    requires { at + 3 * outputs c.now ≤ length out.old }
    ensures out_after { out.new ≡ sets out.old at (renumbered_closings s.now.gate s.now.closing s.now.count (decode c.now).outputs) }
    ensures value { result ≡ at + 3 * outputs c.now }
{
    let outputs = c.outputs();
    for i in 0..outputs {
        let old = c.output(i) as u32;
        let new = s.rename(old);
        write_row(out, at + 3 * i, CLOSING, new, 0);
    }
    at + 3 * outputs
}

// The table of the replaced circuit into the front of `out`. The result is where it ends.
pub fn replace(c: &Circuit<'_>, rule: &Rule, gate: u32, b: &Bindings, out: &mut [u32]) -> usize
    requires gate_value { is_gate (decode c.now) gate ≡ true }
    requires bound_below { BoundBelow (said rule.now) gate b.now }
    requires within_size { is_too_large (decode c.now) (said rule.now) ≡ false }
    requires max_table_in_bounds { max_table ≤ length out.old }
    ensures out_after { out.new ≡ over (encode (replace (decode c.now) (said rule.now) gate b.now)) out.old }
    ensures value { result ≡ length (encode (replace (decode c.now) (said rule.now) gate b.now)) }
{
    let table = c.table();
    let lines = c.gates_from();
    let gates = c.gates();
    let first = c.first_gate();
    let from = rule.right_from();
    let count = rule.rights();
    let rights = Instance {
        base: rule.base(),
        gate,
        bindings: b,
    };
    let others = Renumbering {
        gate,
        closing: rights.rename(rule.closing()),
        count,
    };
    let site = lines + 3 * (gate - first) as usize;
    let before = &table[lines..site];
    let right = &rule.table[from..from + 3 * count as usize];
    let behind = &table[site + 3..lines + 3 * gates];
    write_front(c, gates as u32 - 1 + count, out);
    let end = write_gates(before, &others, out, lines);
    let end = write_gates(right, &rights, out, end);
    let end = write_gates(behind, &others, out, end);
    write_closings(c, &others, out, end)
}
