// The rewriting of tables that no refusal applies to.
ghost use Rattle.std.specs.Prelude.{◌≡◌, false, ◌≤◌, length};
ghost use Rattle.lines.specs.Calls.{over};
ghost use Rattle.circuit.specs.Circuit.{max_table, line_count};
ghost use Rattle.circuit.specs.Table.{decode, encode};
ghost use Rattle.rewriting.specs.RewriteCall.{values_of, are_short, done_values};
ghost use Rattle.rewriting.specs.Run.{handed_back, all_verdicts};

use crate::Rewriting;
use crate::run::{Current, Run, Workspace};
use circuit::checked::{Circuit, MAX_REFERENCES, MAX_TABLE, copy_over};
use rules::checked::{Rules, Sites};

// A circuit's table over the front of `result`. What is given back is how many lines it has.
fn copy_table(circuit: &Circuit<'_>, res: &mut [u32]) -> u32
    requires { max_table ≤ length res.old }
    ensures value { result ≡ line_count (decode circuit.now) }
    ensures res_after { res.new ≡ over circuit.now res.old }
{
    let table = circuit.table();
    copy_over(table, res);
    (table.len() / 3) as u32
}

// Trims the circuit, runs over the sites, and hands back what they leave.
pub fn rewrite_accepted(
    circuit: &Circuit<'_>,
    rules: &Rules,
    sites: &Sites,
    res: &mut [u32],
    work: &mut [u32],
    verdicts: &mut [u8],
) -> Rewriting
    requires { are_short res.old work.old verdicts.old ≡ false }
    ensures result_value { values_of result ≡ done_values circuit.now rules.now.table.now sites.now.table.now }
    ensures res_after { res.new ≡ over
        (encode (handed_back circuit.now rules.now.table.now sites.now.table.now)) res.old }
    ensures verdicts_after { verdicts.new ≡ over (all_verdicts circuit.now rules.now.table.now sites.now.table.now) verdicts.old }
{
    let mut w = Workspace {
        depths: [0u32; MAX_REFERENCES],
        reverse: [0u32; MAX_REFERENCES],
    };
    let mut current = Current {
        table: [0u32; MAX_TABLE],
        depths: [0u32; MAX_REFERENCES],
    };
    let start = Run::start(circuit, &mut current, &mut w);
    let run = start.take_sites(rules, sites, &mut current, &mut w, work, verdicts);
    let lines = copy_table(&run.circuit(&current), res);
    Rewriting {
        lines,
        old: start.pair,
        new: run.pair,
        kept: run.kept,
    }
}
