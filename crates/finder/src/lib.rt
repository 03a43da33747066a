// The finder of swap masks (02, 2026-02).
#![tactic(auto)]

ghost use Rattle.std.specs.Prelude.{◌≡◌, IfOk};
ghost use Rattle.lines.specs.Refusal.{found_by};
ghost use Rattle.lines.specs.Checks.{first_found};
ghost use Rattle.finder.specs.FindCall.{paper_values, is_limit, find_checks, finding};

mod answering;
mod search;

use answering::found_at;
use circuit::checked::{Circuit, old_number};
use lines::{Reason, Refusal, refuse_if};
use rules::Verdict;
use rules::checked::{Rules, accept_match};

// The largest limit of ways.
pub const MAX_WAYS: u32 = 65535;

// The outcomes by their numbers for the C interface, beside the verdicts 1 to 3: a mask, "none" and "spent".
pub const MASK: u32 = 0;

pub const NO_MASK: u32 = 4;

pub const SPENT: u32 = 5;

// A mask with the ways tried; a verdict before the match; "none" with the ways tried; "spent" with the limit.
#[derive(Clone, Copy, Debug, PartialEq, Eq)]
pub enum Found {
    Mask { mask: u32, ways: u32 },
    Verdict(Verdict),
    NoMask(u32),
    Spent(u32),
}

// Whether a limit of ways is in its range.
fn is_limit(limit: u32) -> bool
    ensures { result ≡ is_limit limit }
{
    (1..=MAX_WAYS).contains(&limit)
}

// The circuit and the rules of a call of `find_mask`, if no refusal applies.
fn accept_find<'a>(
    circuit: &'a [u32],
    rules: &'a [u32],
    limit: u32,
) -> Result<(Circuit<'a>, Rules<'a>), Refusal>
    ensures refusal { found_by result ≡ first_found (find_checks circuit.now rules.now limit) }
    ensures accepted { IfOk result (λ (c, r). (c ≡ circuit.now) × (r.table.now ≡ rules.now)) }
{
    let accepted = accept_match(circuit, rules)?;
    refuse_if(!is_limit(limit), Reason::WayLimitOutOfRange, None)?;
    Ok(accepted)
}

// The smallest mask by which a rule matches at a gate of the trimmed circuit, looked for in at most `limit` ways. As for `rules::match_site`, the
// circuit as it is serves for it, with the gate's number there.
pub fn find_mask(
    circuit: &[u32],
    rules: &[u32],
    number: u32,
    gate: u32,
    limit: u32,
) -> Result<Found, Refusal>
    ensures { paper_values result ≡ finding circuit.now rules.now number gate limit }
{
    let (circuit, rules) = accept_find(circuit, rules, limit)?;
    let old = old_number(&circuit, gate);
    Ok(found_at(&circuit, &rules, number, old, limit))
}
