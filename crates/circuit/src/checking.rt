// The refusal of a circuit's table, and its tests in the order of the refusals 4, 5, 11, 6 and 7; 6 and 7 in one walk. Each test is true if
// the refusal does not apply.
ghost use Rattle.std.specs.Prelude.{◌≡◌, IfOk, [], ◌∷◌, ◌&&◌, suc, ◌+◌, ◌*◌, ◌≤◌, length, drop};
ghost use Rattle.lines.specs.Refusal.{found_by};
ghost use Rattle.lines.specs.Checks.{found, first_found};
ghost use Rattle.circuit.specs.Circuit.{max_inputs, max_gates, max_outputs, max_references};
ghost use Rattle.circuit.specs.Each.{all_gates};
ghost use Rattle.circuit.specs.Refusal.{head_in_limits, lines_as_head_says, is_start, starts_ok, gate_kinds_ok, closing_kinds_ok, operands_ok, closing_references_ok, circuit_table, refusal};
ghost use Rattle.circuit.specs.Refusal.{has_gate_kind, operands_below, is_closing, reference_below};
ghost use Rattle.circuit.specs.Table.{inputs, gates, outputs, start_run, gates_from, line_at, lines_of};
ghost use Rattle.circuit.specs.WellFormed.{Sized};

use crate::table::{
    CLOSING, CONSTANTS, Circuit, Kind, MAX_GATES, MAX_INPUTS, MAX_LEVEL, MAX_OUTPUTS, MIN_LEVEL,
    START, closings_from, first_gate, gates_from,
};
use lines::{Reason, Refusal, Table, is_partial, refuse_if};

// Refusal 4.
fn head_in_limits(t: &[u32]) -> bool
    requires { 3 ≤ length t.now }
    ensures { result ≡ head_in_limits t.now }
{
    let inputs = t[0];
    let gates = t[1];
    let outputs = t[2];
    (inputs <= MAX_INPUTS) & ((gates <= MAX_GATES) & ((1 <= outputs) & (outputs <= MAX_OUTPUTS)))
}

// What a walk of the starting lines finds: where they end, and whether they are right, which is refusal 11. Both are told of right lines and of
// wrong ones, as refusal 5 is tested between them, so that no Option or Result is meant.
#[derive(Clone, Copy)]
struct StartRun {
    end: usize,
    right: bool,
}

// Whether a starting line is right, where the line before it names input `before`. Ways out run faster here than one formula.
fn is_start(before: u32, top: u32, input: u32, level: u32) -> bool
    ensures { result ≡ is_start top (suc before) (record { input = input; level = level }) }
{
    if input <= before {
        return false;
    }
    if top <= input {
        return false;
    }
    (MIN_LEVEL <= level) & (level <= MAX_LEVEL)
}

// Where the starting lines end, of which those from number p on are left. A `while`, as the place is what is asked for: a chain over the
// lines would count them and multiply.
fn run_end(t: &[u32], p: usize) -> usize
    requires { p ≤ length t.now + 3 }
    ensures { result ≡ p + 3 * start_run (drop p t.now) }
{
    let mut q = p;
    while q + 2 < t.len() {
        if t[q] != START {
            return q;
        }
        q += 3;
    }
    q
}

// The lines right after the head that begin with 4, whatever else is in them. A `while`, as in `run_end`: the place goes out of it.
fn walk_starts(t: &[u32]) -> StartRun
    requires in_bounds { 3 ≤ length t.now }
    requires t_bound { inputs t.now ≤ max_inputs }
    ensures end_value { result.end ≡ gates_from t.now }
    ensures right_value { result.right ≡ starts_ok t.now }
{
    let top = first_gate(t);
    let mut before = CONSTANTS - 1;
    let mut p: usize = 3;
    while p + 2 < t.len() {
        if t[p] != START {
            return StartRun {
                end: p,
                right: true,
            };
        }
        let input = t[p + 1];
        if !is_start(before, top, input, t[p + 2]) {
            return StartRun {
                end: run_end(t, p),
                right: false,
            };
        }
        before = input;
        p += 3;
    }
    StartRun {
        end: p,
        right: true,
    }
}

// Refusal 5, where the gate lines begin at `from`.
fn lines_as_head_says(t: &[u32], from: usize) -> bool
    requires in_bounds { 3 ≤ length t.now }
    requires t_bound { (gates t.now ≤ max_gates) × (outputs t.now ≤ max_outputs) }
    requires from_value { from ≡ gates_from t.now }
    ensures { result ≡ lines_as_head_says t.now }
{
    let gates = t[1] as usize;
    let outputs = t[2] as usize;
    t.len() == from + 3 * gates + 3 * outputs
}

// Which refusals do not apply to the lines tested so far: 6 as long as `kinds` is true, 7 as long as `references` is. Both are kept to the
// end of a walk, since any 6 comes before all 7s.
#[derive(Clone, Copy)]
pub struct Tested {
    pub kinds: bool,
    pub references: bool,
}

// What the gate line at number p, whose own reference is `own`, leaves of `earlier`.
pub fn test_gate(t: &[u32], p: usize, own: u32, earlier: Tested) -> Tested
    requires { p + 3 ≤ length t.now }
    ensures kinds_value { result.kinds ≡ (earlier.kinds && has_gate_kind own (line_at t.now p)) }
    ensures references_value { result.references ≡ (earlier.references && operands_below own (line_at t.now p)) }
{
    let kind = t[p];
    let left = t[p + 1];
    let right = t[p + 2];
    Tested {
        kinds: earlier.kinds & Kind::try_from(kind).is_ok(),
        references: earlier.references & ((left < own) & (right < own)),
    }
}

// What n gate lines, from number q on, the first of them reference `first`, leave of `earlier`.
pub fn test_gates(t: &[u32], q: usize, n: usize, first: u32, earlier: Tested) -> Tested
    requires n_in_bounds { q + 3 * n ≤ length t.now }
    requires n_bound { first + n ≤ max_references }
    ensures kinds_value { result.kinds ≡ (earlier.kinds && all_gates has_gate_kind first (lines_of n (drop q t.now))) }
    ensures references_value { result.references ≡ (earlier.references && all_gates operands_below first (lines_of n (drop q t.now))) }
{
    let mut tested = earlier;
    for i in 0..n {
        tested = test_gate(t, q + 3 * i, first + i as u32, tested);
    }
    tested
}

// What the closing line at number p leaves of `earlier`, where references are to be below `top`.
pub fn test_closing(t: &[u32], p: usize, top: u32, earlier: Tested) -> Tested
    requires { p + 3 ≤ length t.now }
    ensures kinds_value { result.kinds ≡ (earlier.kinds && is_closing 0 (line_at t.now p)) }
    ensures references_value { result.references ≡ (earlier.references && reference_below top 0 (line_at t.now p)) }
{
    let kind = t[p];
    let reference = t[p + 1];
    let last = t[p + 2];
    Tested {
        kinds: earlier.kinds & ((kind == CLOSING) & (last == 0)),
        references: earlier.references & (reference < top),
    }
}

// What n closing lines, from number q on, leave of `earlier`. A place in the table, which `test_closing` asks for.
fn test_closings(t: &[u32], q: usize, n: usize, top: u32, earlier: Tested) -> Tested
    requires { q + 3 * n ≤ length t.now }
    ensures kinds_value { result.kinds ≡ (earlier.kinds && all_gates is_closing 0 (lines_of n (drop q t.now))) }
    ensures references_value { result.references ≡ (earlier.references && all_gates (reference_below top) 0 (lines_of n (drop q t.now))) }
{
    let mut tested = earlier;
    for i in 0..n {
        tested = test_closing(t, q + 3 * i, top, tested);
    }
    tested
}

// Refusals 6 and 7, in one walk over the gate lines and closing lines.
fn test_lines(t: &[u32]) -> Tested
    requires { Sized t.now }
    ensures kinds_value { result.kinds ≡ (gate_kinds_ok t.now && closing_kinds_ok t.now) }
    ensures references_value { result.references ≡ (operands_ok t.now && closing_references_ok t.now) }
{
    let gates = t[1];
    let outputs = t[2] as usize;
    let first = first_gate(t);
    let untested = Tested {
        kinds: true,
        references: true,
    };
    let gates_tested = test_gates(t, gates_from(t), gates as usize, first, untested);
    test_closings(t, closings_from(t), outputs, first + gates, gates_tested)
}

// The checks of a circuit's table.
fn check_circuit(t: &[u32]) -> Result<(), Refusal>
    ensures { found_by result ≡ first_found (found (refusal t.now) circuit_table ∷ []) }
{
    let table = Some(Table::Circuit);
    refuse_if(is_partial(t), Reason::WrongLength, table)?;
    refuse_if(!head_in_limits(t), Reason::HeadOutOfLimits, table)?;
    let starts = walk_starts(t);
    refuse_if(
        !lines_as_head_says(t, starts.end),
        Reason::LinesNotAsHeadSays,
        table,
    )?;
    refuse_if(!starts.right, Reason::WrongStart, table)?;
    let tested = test_lines(t);
    refuse_if(!tested.kinds, Reason::UnknownKind, table)?;
    refuse_if(!tested.references, Reason::ReferenceOutOfRange, table)
}

// The circuit that a table says, if no refusal applies.
pub fn accept(table: &[u32]) -> Result<Circuit<'_>, Refusal>
    ensures refusal { found_by result ≡ first_found (found (refusal table.now) circuit_table ∷ []) }
    ensures accepted { IfOk result (λ c. c ≡ table.now) }
{
    check_circuit(table)?;
    Ok(Circuit::of(table))
}
