// The run over a list of sites (01, Sites, 3 and 13 to 18).
ghost use Rattle.std.specs.Prelude.{◌≡◌, ◌+◌, ◌≤◌, ◌<◌, length, take};
ghost use Rattle.lists.specs.First.{first};
ghost use Rattle.lines.specs.Calls.{over};
ghost use Rattle.circuit.specs.Circuit.{max_references, max_table};
ghost use Rattle.circuit.specs.Critical.{pair_of};
ghost use Rattle.circuit.specs.Depth.{depths as depths_of};
ghost use Rattle.circuit.specs.Table.{refs, decode};
ghost use Rattle.circuit.specs.Trim.{trim, trim_of};
ghost use Rattle.circuit.specs.WellFormed.{WellFormed};
ghost use Rattle.rules.specs.Remembered.{said, Remembered};
ghost use Rattle.rules.specs.SiteTable.{max_sites, site};
ghost use Rattle.rules.specs.Verdict.{passes, number_of, applied_number};
ghost use Rattle.rewriting.specs.Run.{start_state, step, after_all, verdicts_on};
ghost use Rattle.rewriting.specs.RunState.{state_of, step_of, stepped_by, Held, DepthsOf, Measured, SameBelow};
ghost use Rattle.rewriting.specs.StepParts.{settled};
ghost use Rattle.rewriting.specs.Verdict.{too_large, is_too_large};

use crate::replacing::replace;
use circuit::checked::{
    Circuit, DepthPair, MAX_GATES, MAX_REFERENCES, MAX_TABLE, copy_over,
    critical_with_reverse_depths, depths_from, output_depth, pair_with_reverse_depths,
    trim_by_reverse_depths, trim_depths,
};
use rules::Verdict;
use rules::checked::{HEAD, Judgements, RULE_NUMBERS, Rule, Rules, Sites, match_judged};

// What is worked out, for each reference, of a circuit that is not trimmed yet.
#[derive(Drop)]
pub struct Workspace {
    pub depths: [u32; MAX_REFERENCES],
    pub reverse: [u32; MAX_REFERENCES],
}

// The arrays that a run is handed on beside: they begin with the table of the circuit as it then is, and with its depths (`Held`). By value
// they would be copied at each site.
#[derive(Drop)]
pub struct Current {
    pub table: [u32; MAX_TABLE],
    pub depths: [u32; MAX_REFERENCES],
}

// What is handed on from site to site (01, Sites, 15): where the circuit's table ends, its pair, and how many sites were kept.
#[derive(Clone, Copy, Debug, PartialEq, Eq)]
pub struct Run {
    end: usize,
    pub pair: DepthPair,
    pub kept: u32,
}

// The next run, and the site's verdict, if one applies.
#[derive(Clone, Copy, Debug, PartialEq, Eq)]
pub struct Stepped {
    pub run: Run,
    pub verdict: Option<Verdict>,
}

// Whether the circuit after replacement by the rule is within the limits: the last verdict before replacement.
fn check_size(circuit: &Circuit<'_>, rule: &Rule) -> Result<(), Verdict>
    ensures { number_of result ≡ first (is_too_large (decode circuit.now) (said rule.now)) too_large passes }
{
    if MAX_GATES + 1 < circuit.gates() as u32 + rule.rights() {
        return Err(Verdict::TooLarge);
    }
    Ok(())
}

// 01's number of a site's verdict, 0 if it is kept.
fn verdict_byte(verdict: Option<Verdict>) -> u8
    ensures { result ≡ applied_number verdict }
{
    match verdict {
        None => 0,
        Some(v) => v as u8,
    }
}

// The circuit of `kept`, trimmed, into `table`, and its depths into `depths`. The result is where its table ends. Then `w.depths` has been
// free to take the new numbers of references. That `kept` is well-formed is told by its methods alone, and none is called here.
fn trim_into(kept: &Circuit<'_>, w: &mut Workspace, table: &mut [u32], depths: &mut [u32]) -> usize
    requires well_formed { WellFormed kept.now }
    requires measured { Measured kept.now w.old }
    requires max_table_in_bounds { max_table ≤ length table.old }
    requires max_references_in_bounds { max_references ≤ length depths.old }
    ensures value { result ≡ length (trim_of kept.now) }
    ensures table_after { table.new ≡ over (trim_of kept.now) table.old }
    ensures depths_after { DepthsOf (trim (decode kept.now)) depths.new }
{
    trim_depths(kept, &w.reverse, &w.depths, depths);
    trim_by_reverse_depths(kept, &w.reverse, &mut w.depths, table)
}

impl Run {
    // The circuit first read, trimmed (01, Sites, 3).
    pub fn start(circuit: &Circuit<'_>, current: &mut Current, w: &mut Workspace) -> Run
        ensures value { state_of result current.new ≡ start_state (decode circuit.now) }
        ensures held { Held result current.new }
        ensures well_formed { WellFormed circuit.now }
    {
        prove!(circuit.references() <= MAX_REFERENCES);
        let pair = pair_with_reverse_depths(circuit, &mut w.depths, &mut w.reverse);
        let end = trim_into(circuit, w, &mut current.table, &mut current.depths);
        Run { end, pair, kept: 0 }
    }

    // The circuit as it then is.
    pub fn circuit(self, current: &Current) -> Circuit<'_>
        requires { Held self current.now }
        ensures value { decode result ≡ (state_of self current.now).circuit }
        ensures well_formed { WellFormed result }
    {
        Circuit::of(&current.table[..self.end])
    }

    // Goes on with a circuit that is kept, whose pair is `new`, and trims it.
    fn keep(
        self,
        kept: &Circuit<'_>,
        new: DepthPair,
        current: &mut Current,
        w: &mut Workspace,
    ) -> Run
        requires well_formed { WellFormed kept.now }
        requires measured { Measured kept.now w.old }
        requires new_value { new ≡ pair_of (decode kept.now) }
        requires kept_lt_max_sites { self.kept < max_sites }
        ensures value { state_of result current.new ≡ record { circuit = trim (decode kept.now); kept = self.kept + 1 } }
        ensures held { Held result current.new }
    {
        let end = trim_into(kept, w, &mut current.table, &mut current.depths);
        Run {
            end,
            pair: new,
            kept: self.kept + 1,
        }
    }

    // The depths of the circuit after replacement of a gate, whose table `candidate` is, worked out from that gate on.
    fn measure(
        self,
        current: &Current,
        candidate: &Circuit<'_>,
        gate: u32,
        depths: &mut [u32; MAX_REFERENCES],
    )
        requires held { Held self current.now }
        requires same_below { SameBelow (state_of self current.now).circuit gate candidate.now }
        ensures depths_after { take (refs candidate.now) depths.new ≡ depths_of (decode candidate.now) }
        ensures well_formed { WellFormed candidate.now }
    {
        let start = gate - candidate.first_gate();
        copy_over(&current.depths[..gate as usize], depths);
        depths_from(candidate, start as usize, depths);
    }

    // What the circuit after replacement leaves: it is kept if its pair is lower. A deeper one is not, whatever its critical count.
    fn settle(
        self,
        candidate: &Circuit<'_>,
        gate: u32,
        current: &mut Current,
        w: &mut Workspace,
    ) -> Result<Run, Verdict>
        requires held { Held self current.old }
        requires same_below { SameBelow (state_of self current.old).circuit gate candidate.now }
        requires kept_lt_max_sites { self.kept < max_sites }
        ensures value { step_of (stepped_by self result) current.new ≡ settled (state_of self current.old) (decode candidate.now) }
        ensures held_after { Held (stepped_by self result).run current.new }
    {
        self.measure(current, candidate, gate, &mut w.depths);
        let depth = output_depth(candidate, &w.depths);
        if self.pair.depth < depth {
            return Err(Verdict::NotLower);
        }
        let critical = critical_with_reverse_depths(candidate, &w.depths, depth, &mut w.reverse);
        let new = DepthPair { depth, critical };
        let is_lower = new < self.pair;
        if is_lower {
            return Ok(self.keep(candidate, new, current, w));
        }
        Err(Verdict::NotLower)
    }

    // The next run if a site, by its three numbers, is kept, or else its verdict. The table after replacement goes into `work`; of that and of
    // `w` nothing is asked before or after. What is found of the rule stays in `known`. A site that does not match costs what its rule's
    // gates do, whatever the circuit has.
    fn rewrite_at<'a>(
        self,
        rules: &Rules<'a>,
        number: u32,
        gate: u32,
        mask: u32,
        known: &mut Judgements<'a>,
        current: &mut Current,
        w: &mut Workspace,
        work: &mut [u32],
    ) -> Result<Run, Verdict>
        requires remembered { Remembered rules.now.table.now known.old }
        requires max_table_in_bounds { max_table ≤ length work.old }
        requires held { Held self current.old }
        requires kept_lt_max_sites { self.kept < max_sites }
        ensures value { step_of (stepped_by self result) current.new ≡
            step rules.now.table.now (state_of self current.old) (site number gate mask) }
        ensures held_after { Held (stepped_by self result).run current.new }
        ensures remembered_2 { Remembered rules.now.table.now known.new }
    {
        let rule = rules.judged_once(number, known)?;
        let circuit = self.circuit(current);
        let b = match_judged(&circuit, Ok(rule), gate, mask)?;
        check_size(&circuit, &rule)?;
        let end = replace(&circuit, &rule, gate, &b, work);
        self.settle(&Circuit::of(&work[..end]), gate, current, w)
    }

    // What a site leaves, by its three numbers, and its verdict. A verdict leaves the run as it was.
    fn step<'a>(
        self,
        rules: &Rules<'a>,
        number: u32,
        gate: u32,
        mask: u32,
        known: &mut Judgements<'a>,
        current: &mut Current,
        w: &mut Workspace,
        work: &mut [u32],
    ) -> Stepped
        requires remembered { Remembered rules.now.table.now known.old }
        requires max_table_in_bounds { max_table ≤ length work.old }
        requires held { Held self current.old }
        requires kept_lt_max_sites { self.kept < max_sites }
        ensures value { step_of result current.new ≡
            step rules.now.table.now (state_of self current.old) (site number gate mask) }
        ensures held_after { Held result.run current.new }
        ensures remembered_2 { Remembered rules.now.table.now known.new }
    {
        match self.rewrite_at(rules, number, gate, mask, known, current, w, work) {
            Ok(run) => Stepped { run, verdict: None },
            Err(verdict) => Stepped {
                run: self,
                verdict: Some(verdict),
            },
        }
    }

    // Takes the sites in order, and puts a verdict a site over the front of `verdicts`.
    pub fn take_sites(
        self,
        rules: &Rules,
        sites: &Sites,
        current: &mut Current,
        w: &mut Workspace,
        work: &mut [u32],
        verdicts: &mut [u8],
    ) -> Run
        requires max_table_in_bounds { max_table ≤ length work.old }
        requires held { Held self current.old }
        requires kept_value { self.kept ≡ 0 }
        requires max_sites_in_bounds { max_sites ≤ length verdicts.old }
        ensures value { state_of result current.new ≡
            after_all rules.now.table.now sites.now.table.now (state_of self current.old) }
        ensures held_after { Held result current.new }
        ensures verdicts_after { verdicts.new ≡ over (verdicts_on rules.now.table.now sites.now.table.now (state_of self current.old)) verdicts.old }
    {
        let mut known: Judgements = [None; RULE_NUMBERS];
        let mut run = self;
        let (rows, _) = sites.table[HEAD..].as_chunks::<3>();
        for (i, &[rule, gate, mask]) in rows.iter().enumerate() {
            let stepped = run.step(rules, rule, gate, mask, &mut known, current, w, work);
            verdicts[i] = verdict_byte(stepped.verdict);
            run = stepped.run;
        }
        run
    }
}
