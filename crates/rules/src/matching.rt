// The match of a rule's left side at a gate (01, Sites, Match).
ghost use Rattle.std.specs.Prelude.{◌≡◌, ◌+◌, ◌<◌, ◌≤◌, eqb, length, get_or};
ghost use Rattle.std.proofs.Math.Option.{bind};
ghost use Rattle.circuit.specs.Circuit.{max_references, kind_number};
ghost use Rattle.circuit.specs.Table.{refs, line_at, decode};
ghost use Rattle.rules.specs.Rule.{max_left_references};
ghost use Rattle.rules.specs.Remembered.{said};
ghost use Rattle.rules.specs.RuleTable.{lefts_at};
ghost use Rattle.rules.specs.Match.{bind_reference, match_gate, match_left, match_gates, start_bindings, attempt};
ghost use Rattle.rules.specs.Verdict.{match_of, match_at};

use crate::Verdict;
use crate::rule::Rule;
use crate::table::{BINDINGS, Bindings};
use circuit::checked::{Circuit, Kind};

// Rule reference r paired with circuit reference v: an unbound one becomes bound. Where it fails, the bindings are of no more use.
// Here and below they are lent, beside a bool, as an Option of them would copy all 27 at each call (specs' `attempt` joins the two).
fn bind_reference(b: &mut Bindings, r: usize, v: u32) -> bool
    requires r_lt_max_left_references { r < max_left_references }
    requires v_lt_max_references { v < max_references }
    ensures { attempt result b.new ≡ bind_reference r v b.old }
{
    let old = b[r];
    if old == 0 {
        b[r] = v + 1;
        return true;
    }
    old == v + 1
}

// Rule references l and r paired with x and y, the left ones first.
fn bind_operands(b: &mut Bindings, l: usize, r: usize, x: u32, y: u32) -> bool
    requires l_lt_max_left_references { (l < max_left_references) × (r < max_left_references) }
    requires x_lt_max_references { (x < max_references) × (y < max_references) }
    ensures { attempt result b.new ≡ bind (bind_reference l x b.old) (bind_reference r y) }
{
    bind_reference(b, l, x) && bind_reference(b, r, y)
}

// Whether a gate's kind is the one that a rule's line has.
fn is_of_kind(kind: Kind, number: u32) -> bool
    ensures { result ≡ eqb (kind_number kind) number }
{
    match kind {
        Kind::Xor => number == 1,
        Kind::And => number == 2,
    }
}

// One left gate's part of the match: its line begins at number q of t, where the definition reads it too (`line_at`), its reference is m. An
// unbound one is bound to no gate.
fn match_gate(c: &Circuit<'_>, t: &[u32], q: usize, m: usize, swap: bool, b: &mut Bindings) -> bool
    requires q_in_bounds { (q + 3 ≤ length t.now) × (m < max_left_references) }
    requires q_bound { (get_or t.now (q + 1) 0 < max_left_references) × (get_or t.now (q + 2) 0 < max_left_references) }
    ensures { attempt result b.new ≡ match_gate (decode c.now) m (line_at t.now q) swap b.old }
{
    let base = c.first_gate();
    let bound = b[m];
    if bound <= base {
        return false;
    }
    let k = (bound - 1 - base) as usize;
    if c.gates() <= k {
        return false;
    }
    let gate = c.gate(k);
    if !is_of_kind(gate.kind, t[q]) {
        return false;
    }
    let l = t[q + 1] as usize;
    let r = t[q + 2] as usize;
    if swap {
        return bind_operands(b, l, r, gate.right, gate.left);
    }
    bind_operands(b, l, r, gate.left, gate.right)
}

// Left gate i of a rule.
pub fn match_left(c: &Circuit<'_>, rule: &Rule, i: u32, swap: bool, b: &mut Bindings) -> bool
    requires { i < lefts_at rule.now.table.now rule.now.from }
    ensures { attempt result b.new ≡ match_left (decode c.now) (said rule.now) i swap b.old }
{
    let k = i as usize;
    let q = rule.left_from() + 3 * k;
    match_gate(c, rule.table, q, rule.base() as usize + k, swap, b)
}

// The left gates of a rule, from the last to the first.
fn match_gates(c: &Circuit<'_>, rule: &Rule, mask: u32, b: &mut Bindings) -> bool
    ensures { attempt result b.new ≡ match_gates (decode c.now) (said rule.now) mask
        (lefts_at rule.now.table.now rule.now.from) b.old }
{
    for i in (0..rule.lefts()).rev() {
        let swap = (mask >> i) % 2 == 1;
        if !match_left(c, rule, i, swap, b) {
            return false;
        }
    }
    true
}

// Before the first of them: the constants are bound to themselves, the last left gate to the site's gate.
pub fn start_bindings(rule: &Rule, gate: u32) -> Bindings
    requires { gate < max_references }
    ensures { result ≡ start_bindings (said rule.now) gate }
{
    let mut b = [0; BINDINGS];
    b[0] = 1;
    b[1] = 2;
    b[rule.root() as usize] = gate + 1;
    b
}

// The bindings of a rule at a gate, if it matches there.
pub fn match_at(c: &Circuit<'_>, rule: &Rule, gate: u32, mask: u32) -> Result<Bindings, Verdict>
    requires { (gate < refs c.now) × (refs c.now ≤ max_references) }
    ensures { match_of result ≡ match_at (decode c.now) (said rule.now) gate mask }
{
    if mask >> rule.lefts() != 0 {
        return Err(Verdict::NoMatch);
    }
    let mut b = start_bindings(rule, gate);
    if !match_gates(c, rule, mask, &mut b) {
        return Err(Verdict::NoMatch);
    }
    Ok(b)
}
