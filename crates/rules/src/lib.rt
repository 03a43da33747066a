// Rules and sites as tables of three numbers a line: their checks, the judge and the match (01, Rules; Sites).
#![tactic(auto)]

ghost use Rattle.std.specs.Prelude.{◌≡◌};
ghost use Rattle.rules.specs.JudgeCall.{judging, paper_values as judged_values};
ghost use Rattle.rules.specs.MatchCall.{matching, paper_values as matched_values};

pub mod checked;
mod checking;
mod judging;
mod matching;
mod rule;
mod site;
mod site_match;
mod table;

use checking::{accept_match, accept_rules};
use circuit::checked::old_number;
use lines::Refusal;
use site_match::match_numbered;

// The verdicts on a site by 01's numbers (Sites, 13): the first that applies is the site's. A site that passes them all is kept.
#[derive(Clone, Copy, Debug, PartialEq, Eq)]
pub enum Verdict {
    NoRule = 1,
    NotSound = 2,
    NotAGate = 3,
    NoMatch = 4,
    TooLarge = 5,
    NotLower = 6,
}

// What a reference is in a circuit.
#[derive(Clone, Copy, Debug, PartialEq, Eq)]
pub enum ReferenceKind {
    Constant,
    Input,
    Gate,
    Beyond,
}

// The verdict on a rule by its number, if one applies: there is none of that number, or it is not sound.
pub fn judge(rules: &[u32], number: u32) -> Result<Option<Verdict>, Refusal>
    ensures { judged_values result ≡ judging rules.now number }
{
    let rules = accept_rules(rules)?;
    Ok(rules.judged(number).err())
}

// The verdict on a site before anything is replaced there, if one applies: the first of those up to the match that does in the trimmed circuit.
// What a kept gate reads is kept, and trimming only renames it, so that a left gate's part of the match holds there exactly if it holds in the
// circuit as it is: that one is taken, with the gate's number in it.
pub fn match_site(
    circuit: &[u32],
    rules: &[u32],
    number: u32,
    gate: u32,
    mask: u32,
) -> Result<Option<Verdict>, Refusal>
    ensures { matched_values result ≡ matching circuit.now rules.now number gate mask }
{
    let (circuit, rules) = accept_match(circuit, rules)?;
    let old = old_number(&circuit, gate);
    Ok(match_numbered(&circuit, &rules, number, old, mask).err())
}
