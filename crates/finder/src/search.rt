// The search for the mask by which a rule matches at a gate (02, 2026-02).
ghost use Rattle.std.specs.Prelude.{◌≡◌, ◌+◌, ◌^◌, ◌<◌, ◌≤◌};
ghost use Rattle.std.specs.Option.{option_copied};
ghost use Rattle.circuit.specs.Circuit.{max_references};
ghost use Rattle.circuit.specs.Table.{refs, decode};
ghost use Rattle.rules.specs.Match.{match_left};
ghost use Rattle.rules.specs.Rule.{max_lefts};
ghost use Rattle.rules.specs.Remembered.{said};
ghost use Rattle.rules.specs.RuleTable.{lefts_at};
ghost use Rattle.finder.specs.Search.{events, whole_search, after, raised, first_match, max_ways, over_limit, within, searched_of, left_by};

use circuit::checked::Circuit;
use rules::checked::{Bindings, Rule, match_left, start_bindings};

// What a search has found: the mask of the match, if there is one, and the ways tried.
#[derive(Clone, Copy, Debug, PartialEq, Eq)]
pub struct Searched {
    pub mask: Option<u32>,
    pub ways: u32,
}

// What is found where one way more than the limit is asked for: no match, and that way is counted.
fn over_limit(limit: u32) -> Searched
    requires { limit ≤ max_ways }
    ensures { searched_of result ≡ over_limit limit }
{
    Searched {
        mask: None,
        ways: limit + 1,
    }
}

// What is found after `ways` ways, the last of them the trial crosswise of left gate i, where s is found behind it.
fn behind_crossed(ways: u32, i: u32, s: Searched) -> Searched
    requires { (i < max_lefts) × (((searched_of s).mask < 2 ^ i) × (ways + s.ways ≤ max_ways + 1)) }
    ensures { searched_of result ≡ after ways (raised (2 ^ i) (searched_of s)) }
{
    Searched {
        mask: s.mask.map(|mask| (1 << i) + mask),
        ways: ways + s.ways,
    }
}

// A trial of left gate i of a rule, on bindings that it may change: they are left if its part of the match holds.
fn try_left<'b>(
    c: &Circuit<'_>,
    rule: &Rule,
    i: u32,
    swap: bool,
    bindings: &'b mut Bindings,
) -> Option<&'b Bindings>
    requires { i < lefts_at rule.now.table.now rule.now.from }
    ensures { left_by (option_copied result) ≡ match_left (decode c.now) (said rule.now) i swap bindings.old }
{
    if match_left(c, rule, i, swap, bindings) {
        return Some(bindings);
    }
    None
}

// What is found after a trial, by the bindings that it left, with `ahead` left gates of a rule still to be tried, in at most `limit` ways: it stops
// before a trial that would be one more, and counts that one. The bindings are lent, since a copy costs more than a trial.
fn follow(
    c: &Circuit<'_>,
    rule: &Rule,
    ahead: u32,
    bindings: Option<&Bindings>,
    limit: u32,
) -> Searched
    requires { (ahead ≤ lefts_at rule.now.table.now rule.now.from) × (limit ≤ max_ways) }
    ensures { searched_of result ≡ within limit
        (first_match (events (decode c.now) (said rule.now) ahead (left_by (option_copied bindings.entry)))) }
{
    let Some(bindings) = bindings else {
        return Searched {
            mask: None,
            ways: 0,
        };
    };
    if ahead == 0 {
        return Searched {
            mask: Some(0),
            ways: 0,
        };
    }
    if limit == 0 {
        return over_limit(limit);
    }
    let i = ahead - 1;
    let mut left = *bindings;
    let as_written = try_left(c, rule, i, false, &mut left);
    let found = follow(c, rule, i, as_written, limit - 1);
    let ways = found.ways + 1;
    if let Some(mask) = found.mask {
        return Searched {
            mask: Some(mask),
            ways,
        };
    }
    if limit <= ways {
        return over_limit(limit);
    }
    let mut left = *bindings;
    let crosswise = try_left(c, rule, i, true, &mut left);
    let rest = follow(c, rule, i, crosswise, limit - ways - 1);
    behind_crossed(ways + 1, i, rest)
}

// What is found of a rule at a gate, in at most `limit` ways.
pub fn search_at(c: &Circuit<'_>, rule: &Rule, gate: u32, limit: u32) -> Searched
    requires { ((gate < refs c.now) × (refs c.now ≤ max_references)) × (limit ≤ max_ways) }
    ensures { searched_of result ≡ within limit (first_match (whole_search (decode c.now) (said rule.now) gate)) }
{
    let start = start_bindings(rule, gate);
    follow(c, rule, rule.lefts(), Some(&start), limit)
}
