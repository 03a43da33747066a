// What the calls on rules and sites give for tables.
use crate::Tables;
use lines::Refusal;
use rules::Verdict;
use rules::checked::MAX_RULES;
use std::io;

// A verdict by its number, 0 for none, or the refusal.
fn print_verdict(rt: &impl Print, answer: Result<Option<Verdict>, Refusal>) -> io::Result<()> {
    match answer {
        Ok(Some(verdict)) => print!(rt; " {}", verdict as u8),
        Ok(None) => print!(rt; " 0"),
        Err(refusal) => print!(rt; " {refusal}"),
    }
}

// Each rule, as many as the table's head says, which may say anything; and numbers that no rule has.
pub fn print_judgements(rt: &impl Print, rules: &[u32]) -> io::Result<()> {
    let count = rules.first().copied().unwrap_or(0).min(MAX_RULES);
    for rule in 0..=count + 1 {
        print_verdict(rt, rules::judge(rules, rule))?;
    }
    print_verdict(rt, rules::judge(rules, u32::MAX))
}

fn print_match(rt: &impl Print, tables: Tables, rule: u32, gate: u32, mask: u32) -> io::Result<()> {
    let answer = rules::match_site(tables.circuit, tables.rules, rule, gate, mask);
    print_verdict(rt, answer)
}

// Each line behind the head of a table of sites, whatever the head says; and the largest numbers that there are.
pub fn print_matches(rt: &impl Print, tables: Tables) -> io::Result<()> {
    let (lines, _) = tables.sites.as_chunks::<3>();
    for [rule, gate, mask] in lines.iter().skip(1) {
        print_match(rt, tables, *rule, *gate, *mask)?;
    }
    print_match(rt, tables, 1, u32::MAX, u32::MAX)?;
    print_match(rt, tables, u32::MAX, u32::MAX, u32::MAX)
}
