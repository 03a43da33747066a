// What a reference is, and the match of a site, or the first of its verdicts that applies (01, Sites, 13).
ghost use Rattle.std.specs.Prelude.{◌≡◌, ◌≤◌, IfOk, IfErr, Ok};
ghost use Rattle.circuit.specs.Circuit.{max_references};
ghost use Rattle.circuit.specs.Table.{refs, decode};
ghost use Rattle.rules.specs.Remembered.{said};
ghost use Rattle.rules.specs.Rule.{Rule as SaidRule};
ghost use Rattle.rules.specs.Verdict.{passes, kind_of, verdict_number, early_verdict, number_of, match_of, match_judged, match_site};

use crate::matching::match_at;
use crate::rule::{Rule, Rules};
use crate::table::Bindings;
use crate::{ReferenceKind, Verdict};
use circuit::checked::{CONSTANTS, Circuit};

// What reference v is.
fn kind_of(c: &Circuit<'_>, v: u32) -> ReferenceKind
    ensures value { result ≡ kind_of (decode c.now) v }
    ensures limit { refs c.now ≤ max_references }
{
    let base = c.first_gate();
    let references = c.references() as u32;
    match v {
        0..CONSTANTS => ReferenceKind::Constant,
        _ if v < base => ReferenceKind::Input,
        _ if v < references => ReferenceKind::Gate,
        _ => ReferenceKind::Beyond,
    }
}

// The first of the verdicts before the match that applies: the judge's, or that the site is no gate. If none does, what the judge gave is handed
// on. What the reference is comes first, since `limit` is of each way out.
pub fn early_verdict<T: Copy>(
    c: &Circuit<'_>,
    judged: Result<T, Verdict>,
    gate: u32,
) -> Result<T, Verdict>
    ensures value { number_of result ≡ early_verdict (decode c.now) (number_of judged) gate }
    ensures passed { IfOk result (λ r. judged ≡ Ok r) }
    ensures limit { refs c.now ≤ max_references }
{
    let kind = kind_of(c, gate);
    let passed = judged?;
    match kind {
        ReferenceKind::Gate => Ok(passed),
        ReferenceKind::Constant | ReferenceKind::Input | ReferenceKind::Beyond => {
            Err(Verdict::NotAGate)
        }
    }
}

// The bindings of a rule of which the judge said `judged`, at a site's reference, or the first verdict that applies: the judge's, if there is one,
// whatever rule it is of.
pub fn match_judged(
    c: &Circuit<'_>,
    judged: Result<Rule<'_>, Verdict>,
    gate: u32,
    mask: u32,
) -> Result<Bindings, Verdict>
    ensures passed { IfOk judged.entry (λ r.
        match_of result ≡ match_judged (decode c.now) (said r) passes gate mask) }
    ensures refused { IfErr judged.entry (λ v. (u : SaidRule) →
        match_of result ≡ match_judged (decode c.now) u (verdict_number v) gate mask) }
{
    let rule = early_verdict(c, judged, gate)?;
    match_at(c, &rule, gate, mask)
}

// The same by the rule's number.
pub fn match_numbered(
    c: &Circuit<'_>,
    rules: &Rules,
    number: u32,
    gate: u32,
    mask: u32,
) -> Result<Bindings, Verdict>
    ensures { match_of result ≡ match_site (decode c.now) rules.now.table.now number gate mask }
{
    match_judged(c, rules.judged(number), gate, mask)
}
