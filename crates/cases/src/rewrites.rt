// What the call `rewrite` gives for tables, and what it leaves in the buffers.
use crate::Tables;
use circuit::checked::MAX_TABLE;
use lines::Refusal;
use rewriting::Rewriting;
use rules::checked::MAX_SITES;
use std::io;

// What buffers are filled with before: no table has the one, and no verdict is the other.
const NO_NUMBER: u32 = u32::MAX;

const NO_VERDICT: u8 = u8::MAX;

fn print_answer(rt: &impl Print, answer: Result<Rewriting, Refusal>) -> io::Result<()> {
    match answer {
        Ok(done) => {
            let (old, new) = (done.old, done.new);
            print!(rt;
                " {} {} {} {}",
                done.lines, old.depth, old.critical, new.depth
            )?;
            print!(rt; " {} {}", new.critical, done.kept)
        }
        Err(refusal) => print!(rt; " {refusal}"),
    }
}

// The numbers that were written at the front of the table, and how many were in all of it.
fn print_table(rt: &impl Print, table: &[u32]) -> io::Result<()> {
    print!(rt; " table")?;
    for number in table.iter().take_while(|number| **number != NO_NUMBER) {
        print!(rt; " {number}")?;
    }
    let written = table.iter().filter(|number| **number != NO_NUMBER).count();
    print!(rt; " written {written}")
}

fn print_verdicts(rt: &impl Print, verdicts: &[u8]) -> io::Result<()> {
    print!(rt; " verdicts")?;
    for verdict in verdicts.iter().filter(|verdict| **verdict != NO_VERDICT) {
        print!(rt; " {verdict}")?;
    }
    Ok(())
}

// The answer; the table that was written, and how many numbers were; and the verdicts.
pub fn print_rewriting(rt: &impl Print, tables: Tables) -> io::Result<()> {
    let Tables {
        circuit,
        rules,
        sites,
    } = tables;
    let mut table = [NO_NUMBER; MAX_TABLE + 1];
    let mut work = [0u32; MAX_TABLE];
    let mut verdicts = [NO_VERDICT; MAX_SITES as usize + 1];
    let answer = rewriting::rewrite(circuit, rules, sites, &mut table, &mut work, &mut verdicts);
    print_answer(rt, answer)?;
    print_table(rt, &table)?;
    print_verdicts(rt, &verdicts)
}
