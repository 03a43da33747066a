// What a call answers, as one number.
ghost use Rattle.std.specs.Prelude.{◌≡◌, [], ◌∷◌, ◌+◌, ◌*◌, ◌^◌, ◌<◌};
ghost use Rattle.finder.specs.FindCall.{values_of as found_values};
ghost use Rattle.lines.specs.Refusal.{reason_number, table_number};
ghost use Rattle.napspruce.specs.Packing.{pack_refusal, pack_two, pack_finding, pack_rewriting};
ghost use Rattle.napspruce.specs.Limits.{EachWithin, find_limits, rewrite_limits};
ghost use Rattle.rewriting.specs.RewriteCall.{values_of as rewriting_values};
ghost use Rattle.rules.specs.Verdict.{applied_number};

use finder::{Found, MASK, NO_MASK, SPENT};
use lines::Refusal;
use rewriting::Rewriting;
use rules::Verdict;

// What every refusal is above.
const REFUSAL_BASE: u64 = 1_000_000;

// 2 to the power 32, the place of the higher of two numbers; 2 to the power 16, that of a search's outcome; and 2 to the power 12, that of the
// next of five.
const HIGH_PLACE: u64 = 4_294_967_296;

const OUTCOME_PLACE: u32 = 65_536;

const FIELD_PLACE: u64 = 4096;

pub fn pack_refusal(refusal: Refusal) -> u64
    ensures { result ≡ pack_refusal (reason_number refusal.reason) (table_number refusal.table) }
{
    REFUSAL_BASE + 10 * (refusal.number() as u64) + refusal.table_number() as u64
}

// Two numbers, one above the low 32 bits.
pub fn pack_two(high: u32, low: u32) -> u64
    ensures { result ≡ pack_two high low }
{
    HIGH_PLACE * (high as u64) + low as u64
}

// A verdict's number, 0 for none.
pub fn pack_verdict(verdict: Option<Verdict>) -> u64
    ensures { result ≡ applied_number verdict }
{
    verdict.map_or(0, |verdict| verdict as u64)
}

// The ways of a search, and below them its outcome above the 16 bits of its mask.
fn pack_finding(outcome: u32, mask: u32, ways: u32) -> u64
    requires { EachWithin find_limits (outcome ∷ mask ∷ ways ∷ []) }
    ensures { result ≡ pack_finding (outcome ∷ mask ∷ ways ∷ []) }
{
    pack_two(ways, OUTCOME_PLACE * outcome + mask)
}

// What a search has found, by the number of its outcome; a verdict has no mask and no ways.
pub fn pack_found(found: Found) -> u64
    requires { EachWithin find_limits (found_values found) }
    ensures { result ≡ pack_finding (found_values found) }
{
    match found {
        Found::Mask { mask, ways } => pack_finding(MASK, mask, ways),
        Found::Verdict(verdict) => pack_finding(verdict as u32, 0, 0),
        Found::NoMask(ways) => pack_finding(NO_MASK, 0, ways),
        Found::Spent(limit) => pack_finding(SPENT, 0, limit),
    }
}

// One more number behind those that are packed, in 12 bits.
fn append(packed: u64, value: u32) -> u64
    requires packed_bound { packed < 2 ^ 52 }
    requires value_bound { value < 2 ^ 12 }
    ensures { result ≡ packed * 2 ^ 12 + value }
{
    FIELD_PLACE * packed + value as u64
}

// Both pairs and the number of sites kept, in 12 bits each.
pub fn pack_rewriting(done: Rewriting) -> u64
    requires { EachWithin rewrite_limits (rewriting_values done) }
    ensures { result ≡ pack_rewriting (rewriting_values done) }
{
    let pair = append(done.old.depth as u64, done.old.critical);
    let pairs = append(append(pair, done.new.depth), done.new.critical);
    append(pairs, done.kept)
}
