// How the tables of rules and sites are laid out: their limits, where the parts of a rule begin, and what they say.
ghost use Rattle.std.specs.Prelude.{◌≡◌, true, ◌+◌, ◌≤◌, length};
ghost use Rattle.rules.specs.Rule.{max_lefts, max_rights};
ghost use Rattle.rules.specs.RuleTable.{lefts_at, rights_at, left_from, right_from, closing_from, next_rule, place_of};
ghost use Rattle.rules.specs.Verdict.{has_rule};
ghost use Rattle.rules.specs.WellFormed.{RulesSized};

use circuit::checked::CONSTANTS;

// As many numbers as the head of each table has: the first rule, or the first site, begins behind them.
pub const HEAD: usize = 3;

pub const MAX_RULES: u32 = 64;

// As many as a rule's number can be, with 0, which is none.
pub const RULE_NUMBERS: usize = MAX_RULES as usize + 1;

pub const MAX_HOLES: u32 = 10;

pub const MAX_LEFTS: u32 = 15;

pub const MAX_RIGHTS: u32 = 15;

pub const MAX_SITES: u32 = 512;

// As many references as the left side of a rule can have, and so as many bindings.
pub const BINDINGS: usize = (CONSTANTS + MAX_HOLES + MAX_LEFTS) as usize;

// What each reference of a left side is bound to: 0 for none, else the circuit's reference plus 1 (`binding` in specs/Match.antt).
pub type Bindings = [u32; BINDINGS];

// Of the rule that begins at p: where its left gate lines, its right gate lines, its closing line and the rule behind it begin. These lines
// may still be missing. A place in the whole table, here and where tables are tested, since the definitions tell rules by it (`RuleTable`).
pub fn left_from(t: &[u32], p: usize) -> usize
    requires { p + 3 ≤ length t.now }
    ensures { result ≡ left_from t.now p }
{
    p + 3
}

pub fn right_from(t: &[u32], p: usize) -> usize
    requires p_in_bounds { p + 3 ≤ length t.now }
    requires p_bound { (lefts_at t.now p ≤ max_lefts) × (rights_at t.now p ≤ max_rights) }
    ensures { result ≡ right_from t.now p }
{
    let lefts = t[p + 1] as usize;
    left_from(t, p) + 3 * lefts
}

pub fn closing_from(t: &[u32], p: usize) -> usize
    requires p_in_bounds { p + 3 ≤ length t.now }
    requires p_bound { (lefts_at t.now p ≤ max_lefts) × (rights_at t.now p ≤ max_rights) }
    ensures { result ≡ closing_from t.now p }
{
    let rights = t[p + 2] as usize;
    right_from(t, p) + 3 * rights
}

pub fn next_rule(t: &[u32], p: usize) -> usize
    requires p_in_bounds { p + 3 ≤ length t.now }
    requires p_bound { (lefts_at t.now p ≤ max_lefts) × (rights_at t.now p ≤ max_rights) }
    ensures { result ≡ next_rule t.now p }
{
    closing_from(t, p) + 3
}

// Whether there is a rule of this number; they are numbered from 1.
pub fn has_rule(t: &[u32], rule: u32) -> bool
    requires { RulesSized t.now }
    ensures { result ≡ has_rule t.now rule }
{
    (1 <= rule) & (rule <= t[0])
}

// Where a rule begins, by its number.
pub fn place(t: &[u32], rule: u32) -> usize
    requires rules_sized { RulesSized t.now }
    requires rule_value { has_rule t.now rule ≡ true }
    ensures { result ≡ place_of t.now rule }
{
    let mut p = HEAD;
    for _ in 1..rule {
        p = next_rule(t, p);
    }
    p
}
