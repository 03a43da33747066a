// The listing's numbers behind the circuit's.
ghost use Rattle.std.specs.Prelude.{◌≡◌, ◌+◌, ◌*◌, ◌≤◌, length};
ghost use Rattle.std.proofs.lemmas.List.Edits.{sets};
ghost use Rattle.rules.specs.SiteTable.{max_sites};
ghost use Rattle.napspruce.specs.Listing.{summary, verdict_lines};

use circuit::DepthPair;
use lines::checked::write_row;

// What a line begins with that is none of a circuit.
pub enum Head {
    OldPair = 5,
    NewPair = 6,
    Counts = 7,
    Verdict = 8,
    Refusal = 9,
}

// The pair of the circuit first read, that of the circuit handed back, how many sites there are, and how many of them were kept.
#[derive(Clone, Copy)]
pub struct Summary {
    pub old: DepthPair,
    pub new: DepthPair,
    pub sites: u32,
    pub kept: u32,
}

// The pairs and the counts, from `at` on, here and below the place that `write_row` asks for.
pub fn write_summary(table: &mut [u32], at: usize, s: Summary)
    requires { at + 9 ≤ length table.old }
    ensures { table.new ≡ sets table.old at (summary s) }
{
    write_row(table, at, Head::OldPair as u32, s.old.depth, s.old.critical);
    write_row(
        table,
        at + 3,
        Head::NewPair as u32,
        s.new.depth,
        s.new.critical,
    );
    write_row(table, at + 6, Head::Counts as u32, s.sites, s.kept);
}

// A line for each verdict, from `at` on.
pub fn write_verdicts(table: &mut [u32], at: usize, verdicts: &[u8])
    requires verdicts_le_max_sites { length verdicts.now ≤ max_sites }
    requires verdicts_in_bounds { at + 3 * length verdicts.now ≤ length table.old }
    ensures { table.new ≡ sets table.old at (verdict_lines 1 verdicts.now) }
{
    for (i, &verdict) in verdicts.iter().enumerate() {
        let number = i as u32 + 1;
        write_row(
            table,
            at + 3 * i,
            Head::Verdict as u32,
            number,
            verdict as u32,
        );
    }
}
