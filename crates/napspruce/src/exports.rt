// The calls for C, one each; crate napspruce_c exports them. The answer comes back as one number (specs/Packing.antt).
ghost use Rattle.std.specs.Prelude.{◌≡◌};
ghost use Rattle.lines.specs.Calls.{reading, writing};
ghost use Rattle.circuit.specs.EvaluateCall.{evaluating};
ghost use Rattle.circuit.specs.MeasureCall.{measuring};
ghost use Rattle.rules.specs.JudgeCall.{judging};
ghost use Rattle.rules.specs.MatchCall.{matching};
ghost use Rattle.finder.specs.FindCall.{finding};
ghost use Rattle.rewriting.specs.RewriteCall.{rewriting as rewriting_of};
ghost use Rattle.translator.specs.TranslateCall.{translating};
ghost use Rattle.napspruce.specs.ListingCall.{listing_outcome};
ghost use Rattle.napspruce.specs.Packing.{pack, pack_lines, pack_one, pack_pair, pack_finding, pack_translation};
ghost use Rattle.napspruce.specs.Exports.{packed_leaving, pack_outcome, rewriting_leaving, pack_rewriting_outcome};

use crate::listing::list;
use crate::packing::{pack_found, pack_refusal, pack_rewriting, pack_two, pack_verdict};

// Reads a text into a table. Gives 0.
pub fn napspruce_read(text: &[u8], table: &mut [u32]) -> u64
    ensures { packed_leaving result table.new ≡ pack_outcome pack_lines (reading text.now table.old) }
{
    lines::read(text, table).map_or_else(pack_refusal, |_| 0)
}

// Writes a table as a text. Gives 0.
pub fn napspruce_write(table: &[u32], text: &mut [u8]) -> u64
    ensures { packed_leaving result text.new ≡ pack_outcome pack_lines (writing table.now text.old) }
{
    lines::write(table, text).map_or_else(pack_refusal, |_| 0)
}

// The bits that a circuit gives for input bytes. Gives the number of outputs.
pub fn napspruce_evaluate(circuit: &[u32], inputs: &[u8], outputs: &mut [u8]) -> u64
    ensures { packed_leaving result outputs.new ≡ pack_outcome pack_one
        (evaluating circuit.now inputs.now outputs.old) }
{
    circuit::evaluate(circuit, inputs, outputs).map_or_else(pack_refusal, |count| count as u64)
}

// Gives the depth and the critical count.
pub fn napspruce_measure(circuit: &[u32]) -> u64
    ensures { result ≡ pack pack_pair (measuring circuit.now) }
{
    circuit::measure(circuit).map_or_else(pack_refusal, |pair| pack_two(pair.depth, pair.critical))
}

// Gives the verdict on a rule.
pub fn napspruce_judge(rules: &[u32], rule: u32) -> u64
    ensures { result ≡ pack pack_one (judging rules.now rule) }
{
    rules::judge(rules, rule).map_or_else(pack_refusal, pack_verdict)
}

// Gives the verdict on a site before anything is replaced there.
pub fn napspruce_match(circuit: &[u32], rules: &[u32], rule: u32, gate: u32, mask: u32) -> u64
    ensures { result ≡ pack pack_one (matching circuit.now rules.now rule gate mask) }
{
    rules::match_site(circuit, rules, rule, gate, mask).map_or_else(pack_refusal, pack_verdict)
}

// Gives the mask by which a rule matches at a gate, looked for in at most `limit` ways, or why there is none, and the ways tried.
pub fn napspruce_find(circuit: &[u32], rules: &[u32], rule: u32, gate: u32, limit: u32) -> u64
    ensures { result ≡ pack pack_finding (finding circuit.now rules.now rule gate limit) }
{
    finder::find_mask(circuit, rules, rule, gate, limit).map_or_else(pack_refusal, pack_found)
}

// The trimmed circuit, rewritten at the sites in order. Gives both pairs and the number of sites kept.
pub fn napspruce_rewrite(
    circuit: &[u32],
    rules: &[u32],
    sites: &[u32],
    res: &mut [u32],
    work: &mut [u32],
    verdicts: &mut [u8],
) -> u64
    ensures { rewriting_leaving result res.new work.new verdicts.new ≡ pack_rewriting_outcome
        (rewriting_of circuit.now rules.now sites.now
        res.old work.old verdicts.old) }
{
    rewriting::rewrite(circuit, rules, sites, res, work, verdicts).map_or_else(
        pack_refusal,
        pack_rewriting,
    )
}

// The program of the circuit, trimmed, for a machine with `limit` registers. Gives the need and the number of instructions.
pub fn napspruce_translate(circuit: &[u32], limit: u32, program: &mut [u32]) -> u64
    ensures { packed_leaving result program.new ≡ pack_outcome pack_translation (translating circuit.now limit program.old) }
{
    translator::translate(circuit, limit, program).map_or_else(
        pack_refusal,
        |t| pack_two(t.need, t.instructions),
    )
}

// The listing of three texts (01, Register program, 16). Gives its length.
pub fn napspruce_listing(circuit: &[u8], rules: &[u8], sites: &[u8], listing: &mut [u8]) -> u64
    ensures { packed_leaving result listing.new ≡ pack_outcome pack_one
        (listing_outcome circuit.now rules.now sites.now listing.old) }
{
    list(circuit, rules, sites, listing).map_or_else(pack_refusal, |length| length as u64)
}
