// Rewriting a circuit at a list of sites (01, Sites): replacement, verdicts, and the run over the list.
#![tactic(auto)]

ghost use Rattle.std.specs.Prelude.{◌≡◌, IfOk};
ghost use Rattle.lines.specs.Refusal.{found_by};
ghost use Rattle.lines.specs.Checks.{first_found};
ghost use Rattle.rewriting.specs.RewriteCall.{paper_values as rewritten_values, outcome_of, are_short, rewrite_checks, rewriting};

mod accepted;
mod replacing;
mod run;

use accepted::rewrite_accepted;
use circuit::DepthPair;
use circuit::checked::{Circuit, MAX_TABLE, accept};
use lines::{Reason, Refusal, Table, is_partial, refuse_if};
use rules::checked::{MAX_SITES, Rules, Sites, accept_rules, accept_sites};

// As many verdicts as there can be sites.
const MAX_VERDICTS: usize = MAX_SITES as usize;

// How many lines the circuit handed back has, the pair of the circuit first read, the pair of the one handed back, and how many sites
// were kept.
#[derive(Clone, Copy, Debug, PartialEq, Eq)]
pub struct Rewriting {
    pub lines: u32,
    pub old: DepthPair,
    pub new: DepthPair,
    pub kept: u32,
}

// Refusal 2.
fn are_short(res: &[u32], work: &[u32], verdicts: &[u8]) -> bool
    ensures { result ≡ are_short res.now work.now verdicts.now }
{
    (res.len() < MAX_TABLE) | ((work.len() < MAX_TABLE) | (verdicts.len() < MAX_VERDICTS))
}

// The circuit, the rules and the sites of a call of `rewrite`, if no refusal applies.
fn accept_rewrite<'a>(
    circuit: &'a [u32],
    rules: &'a [u32],
    sites: &'a [u32],
    res: &[u32],
    work: &[u32],
    verdicts: &[u8],
) -> Result<(Circuit<'a>, Rules<'a>, Sites<'a>), Refusal>
    ensures refusal { found_by result ≡ first_found (rewrite_checks circuit.now rules.now sites.now
        res.now work.now verdicts.now) }
    ensures accepted { IfOk result (λ (c, r, s). (c ≡ circuit.now) × (r.table.now ≡ rules.now) × (s.table.now ≡ sites.now)) }
{
    refuse_if(
        is_partial(circuit),
        Reason::WrongLength,
        Some(Table::Circuit),
    )?;
    refuse_if(is_partial(rules), Reason::WrongLength, Some(Table::Rules))?;
    refuse_if(is_partial(sites), Reason::WrongLength, Some(Table::Sites))?;
    refuse_if(are_short(res, work, verdicts), Reason::BufferTooShort, None)?;
    let accepted = accept(circuit)?;
    let rules = accept_rules(rules)?;
    let sites = accept_sites(sites)?;
    Ok((accepted, rules, sites))
}

// The circuit, trimmed and then rewritten at the sites in order, into `res`, and a verdict a site into `verdicts`.
pub fn rewrite(
    circuit: &[u32],
    rules: &[u32],
    sites: &[u32],
    res: &mut [u32],
    work: &mut [u32],
    verdicts: &mut [u8],
) -> Result<Rewriting, Refusal>
    ensures { outcome_of (rewritten_values result) res.new work.new verdicts.new ≡
        rewriting circuit.now rules.now sites.now res.old work.old verdicts.old }
{
    let (circuit, rules, sites) = accept_rewrite(circuit, rules, sites, res, work, verdicts)?;
    Ok(rewrite_accepted(&circuit, &rules, &sites, res, work, verdicts))
}
