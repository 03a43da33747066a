// The checks of tables of rules and sites, and their tests; those of rules in one walk. Each test is true if the refusal does not apply.
ghost use Rattle.std.specs.Prelude.{◌≡◌, IfOk, [], ◌∷◌, false, not, ◌&&◌, ◌+◌, ◌*◌, ◌≤◌, ◌<◌, length, drop};
ghost use Rattle.lists.specs.First.{first};
ghost use Rattle.lines.specs.Refusal.{found_by, number_found_by};
ghost use Rattle.lines.specs.Checks.{found, first_found};
ghost use Rattle.lines.specs.Text.{is_partial};
ghost use Rattle.circuit.specs.Circuit.{constants};
ghost use Rattle.circuit.specs.Each.{all_gates};
ghost use Rattle.circuit.specs.Refusal.{has_gate_kind, operands_below};
ghost use Rattle.circuit.specs.Table.{lines_of};
ghost use Rattle.rules.specs.MatchCall.{match_checks};
ghost use Rattle.rules.specs.Rule.{max_left_references};
ghost use Rattle.rules.specs.RuleRefusal.{rules_head_in_limits, rule_in_limits, rule_kinds_ok, references_ok, uses_ok, rules_table, rules_refusal};
ghost use Rattle.rules.specs.RuleTable.{rule_at};
ghost use Rattle.rules.specs.SiteTable.{sites_head_in_limits, sites_as_head_says, sites_table, sites_refusal};
ghost use Rattle.rules.specs.UseWord.{word_bits, mark, MarksUses, owed};
ghost use Rattle.rules.specs.WellFormed.{RuleSized};

use crate::rule::Rules;
use crate::site::Sites;
use crate::table::{
    HEAD, MAX_HOLES, MAX_LEFTS, MAX_RIGHTS, MAX_RULES, MAX_SITES, closing_from, left_from,
    next_rule, right_from,
};
use circuit::checked::{CONSTANTS, Circuit, Tested, accept, test_closing, test_gate, test_gates};
use lines::{Reason, Refusal, Table, is_partial, refuse_if};

// As many bits as a word has that says which references are used; a left side has fewer.
const WORD_BITS: u32 = 32;

// Refusal 4 of the rules' head.
fn rules_head_in_limits(t: &[u32]) -> bool
    requires { 3 ≤ length t.now }
    ensures { result ≡ rules_head_in_limits t.now }
{
    (t[0] <= MAX_RULES) & ((t[1] == 0) & (t[2] == 0))
}

// Refusal 4 of the head line of the rule at p.
fn rule_in_limits(t: &[u32], p: usize) -> bool
    requires { p + 3 ≤ length t.now }
    ensures { result ≡ rule_in_limits t.now p }
{
    let holes = t[p];
    let lefts = t[p + 1];
    let rights = t[p + 2];
    (holes <= MAX_HOLES) & ((1 <= lefts) & ((lefts <= MAX_LEFTS) & (rights <= MAX_RIGHTS)))
}

// The word of one reference. An operand can still be any number here: one that has no bit is no reference of a left side, and marks nothing.
fn mark(r: u32) -> u32
    ensures { result ≡ mark r }
{
    if r < WORD_BITS { 1u32 << r } else { 0 }
}

// The word of the references that refusal 8 asks for.
fn owed(root: u32) -> u32
    requires { (constants ≤ root) × (root < word_bits) }
    ensures { result ≡ owed root }
{
    (1u32 << root) - (1u32 << CONSTANTS)
}

// What the left gate lines of a rule leave of what was tested earlier, and the word of the references that they use.
#[derive(Clone, Copy)]
struct LeftTested {
    kinds: bool,
    references: bool,
    used: u32,
}

// Of n left gate lines, from number q on, the first of them reference `first`. A place in the table, which `test_gate` asks for.
fn test_lefts(t: &[u32], q: usize, n: usize, first: u32, earlier: Tested) -> LeftTested
    requires n_in_bounds { q + 3 * n ≤ length t.now }
    requires n_bound { first + n ≤ max_left_references }
    ensures kinds_value { result.kinds ≡ (earlier.kinds && all_gates has_gate_kind first (lines_of n (drop q t.now))) }
    ensures references_value { result.references ≡ (earlier.references && all_gates operands_below first (lines_of n (drop q t.now))) }
    ensures marks_uses { MarksUses result.used (lines_of n (drop q t.now)) }
{
    let mut tested = earlier;
    let mut used: u32 = 0;
    for i in 0..n {
        let p = q + 3 * i;
        tested = test_gate(t, p, first + i as u32, tested);
        used = used | (mark(t[p + 1]) | mark(t[p + 2]));
    }
    LeftTested {
        kinds: tested.kinds,
        references: tested.references,
        used: used,
    }
}

// Which refusals do not apply to the rules tested so far: 6 as long as `kinds` is true, 7 as long as `references` is, 8 as long as `uses` is.
// They are kept to the end of the walk, since any 6 comes before all 7s, and any 7 before all 8s.
#[derive(Clone, Copy)]
struct RulesTested {
    kinds: bool,
    references: bool,
    uses: bool,
}

// What the rule at p leaves of `earlier`.
fn test_rule(t: &[u32], p: usize, earlier: RulesTested) -> RulesTested
    requires { RuleSized t.now p }
    ensures kinds_value { result.kinds ≡ (earlier.kinds && rule_kinds_ok t.now p) }
    ensures references_value { result.references ≡ (earlier.references && references_ok (rule_at t.now p)) }
    ensures uses_value { result.uses ≡ (earlier.uses && uses_ok (rule_at t.now p)) }
{
    let first = t[p] + CONSTANTS;
    let lefts = t[p + 1];
    let rights = t[p + 2];
    let untested = Tested {
        kinds: earlier.kinds,
        references: earlier.references,
    };
    let left = test_lefts(t, left_from(t, p), lefts as usize, first, untested);
    let left_tested = Tested {
        kinds: left.kinds,
        references: left.references,
    };
    let right_tested = test_gates(t, right_from(t, p), rights as usize, first, left_tested);
    let closed = test_closing(t, closing_from(t, p), first + rights, right_tested);
    let asked = owed(first + lefts - 1);
    RulesTested {
        kinds: closed.kinds,
        references: closed.references,
        uses: earlier.uses & (left.used & asked == asked),
    }
}

// The lowest of 6, 7 and 8 that applies to some rule.
fn lowest(tested: RulesTested) -> Result<(), Reason>
    ensures { number_found_by result ≡ first (not tested.kinds) 6 (first (not tested.references) 7 (first (not tested.uses) 8 0)) }
{
    if !tested.kinds {
        return Err(Reason::UnknownKind);
    }
    if !tested.references {
        return Err(Reason::ReferenceOutOfRange);
    }
    if !tested.uses {
        return Err(Reason::UnusedReference);
    }
    Ok(())
}

// All refusals but 1, in one walk. 4 and 5 are given at once, since only a rule within its limits, whose lines are there, can be tested, and
// only such a rule says where the next one begins.
fn walk_rules(t: &[u32]) -> Result<(), Reason>
    requires { is_partial 3 t.now ≡ false }
    ensures { number_found_by result ≡ rules_refusal t.now }
{
    if !rules_head_in_limits(t) {
        return Err(Reason::HeadOutOfLimits);
    }
    let mut tested = RulesTested {
        kinds: true,
        references: true,
        uses: true,
    };
    let mut p = HEAD;
    for _ in 0..t[0] {
        if t.len() - p < 3 {
            return Err(Reason::LinesNotAsHeadSays);
        }
        if !rule_in_limits(t, p) {
            return Err(Reason::HeadOutOfLimits);
        }
        let next = next_rule(t, p);
        if t.len() < next {
            return Err(Reason::LinesNotAsHeadSays);
        }
        tested = test_rule(t, p, tested);
        p = next;
    }
    if p != t.len() {
        return Err(Reason::LinesNotAsHeadSays);
    }
    lowest(tested)
}

// Refusal 4 of the sites.
fn sites_head_in_limits(t: &[u32]) -> bool
    requires { 3 ≤ length t.now }
    ensures { result ≡ sites_head_in_limits t.now }
{
    (t[0] <= MAX_SITES) & ((t[1] == 0) & (t[2] == 0))
}

// Refusal 5 of the sites.
fn sites_as_head_says(t: &[u32]) -> bool
    requires { 3 ≤ length t.now }
    ensures { result ≡ sites_as_head_says t.now }
{
    let sites = t[0] as usize;
    t.len() == HEAD + 3 * sites
}

// The checks of a table of rules.
fn check_rules(t: &[u32]) -> Result<(), Refusal>
    ensures { found_by result ≡ first_found (found (rules_refusal t.now) rules_table ∷ []) }
{
    let table = Some(Table::Rules);
    refuse_if(is_partial(t), Reason::WrongLength, table)?;
    walk_rules(t).map_err(|reason| Refusal { reason, table })
}

// The rules that a table says, if no refusal applies.
pub fn accept_rules(table: &[u32]) -> Result<Rules<'_>, Refusal>
    ensures refusal { found_by result ≡ first_found (found (rules_refusal table.now) rules_table ∷ []) }
    ensures accepted { IfOk result (λ r. r.table.now ≡ table.now) }
{
    check_rules(table)?;
    Ok(Rules { table })
}

// The checks of a table of sites.
fn check_sites(t: &[u32]) -> Result<(), Refusal>
    ensures { found_by result ≡ first_found (found (sites_refusal t.now) sites_table ∷ []) }
{
    let table = Some(Table::Sites);
    refuse_if(is_partial(t), Reason::WrongLength, table)?;
    refuse_if(!sites_head_in_limits(t), Reason::HeadOutOfLimits, table)?;
    refuse_if(!sites_as_head_says(t), Reason::LinesNotAsHeadSays, table)
}

// The sites that a table says, if no refusal applies.
pub fn accept_sites(table: &[u32]) -> Result<Sites<'_>, Refusal>
    ensures refusal { found_by result ≡ first_found (found (sites_refusal table.now) sites_table ∷ []) }
    ensures accepted { IfOk result (λ s. s.table.now ≡ table.now) }
{
    check_sites(table)?;
    Ok(Sites { table })
}

// The circuit and the rules of a call that matches them in it, if no refusal applies.
pub fn accept_match<'a>(
    circuit: &'a [u32],
    rules: &'a [u32],
) -> Result<(Circuit<'a>, Rules<'a>), Refusal>
    ensures refusal { found_by result ≡ first_found (match_checks circuit.now rules.now) }
    ensures accepted { IfOk result (λ (c, r). (c ≡ circuit.now) × (r.table.now ≡ rules.now)) }
{
    refuse_if(
        is_partial(circuit),
        Reason::WrongLength,
        Some(Table::Circuit),
    )?;
    refuse_if(is_partial(rules), Reason::WrongLength, Some(Table::Rules))?;
    let accepted = accept(circuit)?;
    let rules = accept_rules(rules)?;
    Ok((accepted, rules))
}
