// What is answered of a search (02, 2026-02).
ghost use Rattle.std.specs.Prelude.{◌≡◌, ◌≤◌};
ghost use Rattle.circuit.specs.Table.{decode};
ghost use Rattle.finder.specs.Search.{max_ways, searched_of};
ghost use Rattle.finder.specs.FindCall.{searched_values, found_values, values_of, values_or};

use crate::Found;
use crate::search::{Searched, search_at};
use circuit::checked::Circuit;
use rules::Verdict;
use rules::checked::{Rules, early_verdict};

// What is answered of a search: "spent", a mask, or "none".
fn found_by(limit: u32, s: Searched) -> Found
    ensures { values_of result ≡ searched_values limit (searched_of s) }
{
    if limit < s.ways {
        return Found::Spent(limit);
    }
    match s.mask {
        Some(mask) => Found::Mask { mask, ways: s.ways },
        None => Found::NoMask(s.ways),
    }
}

// What the search finds in a circuit, which need not be trimmed, or one of the verdicts before the match.
fn found_in(
    c: &Circuit<'_>,
    rules: &Rules,
    number: u32,
    gate: u32,
    limit: u32,
) -> Result<Found, Verdict>
    requires { limit ≤ max_ways }
    ensures { values_or result ≡ found_values (decode c.now) rules.now.table.now number gate limit }
{
    let rule = early_verdict(c, rules.judged(number), gate)?;
    Ok(found_by(limit, search_at(c, &rule, gate, limit)))
}

// The same, a verdict among what can be found.
pub fn found_at(c: &Circuit<'_>, rules: &Rules, number: u32, gate: u32, limit: u32) -> Found
    requires { limit ≤ max_ways }
    ensures { values_of result ≡ found_values (decode c.now) rules.now.table.now number gate limit }
{
    match found_in(c, rules, number, gate, limit) {
        Ok(found) => found,
        Err(verdict) => Found::Verdict(verdict),
    }
}
