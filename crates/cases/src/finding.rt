// What the call `find_mask` gives for tables.
use crate::Tables;
use finder::{Found, MASK, MAX_WAYS, NO_MASK, SPENT};
use lines::Refusal;
use std::io;

// What is looked for: a mask by which the rule matches at the gate.
#[derive(Clone, Copy)]
struct Search<'a> {
    circuit: &'a [u32],
    rules: &'a [u32],
    rule: u32,
    gate: u32,
}

impl Search<'_> {
    fn find(self, limit: u32) -> Result<Found, Refusal> {
        finder::find_mask(self.circuit, self.rules, self.rule, self.gate, limit)
    }

    // How many ways there are, or 0 where none is tried.
    fn ways(self) -> u32 {
        match self.find(MAX_WAYS) {
            Ok(Found::Mask { ways, .. } | Found::NoMask(ways) | Found::Spent(ways)) => ways,
            Ok(Found::Verdict(_)) | Err(_) => 0,
        }
    }

    fn print(self, rt: &impl Print, limit: u32) -> io::Result<()> {
        match self.find(limit) {
            Ok(Found::Mask { mask, ways }) => print!(rt; " {MASK} {mask} {ways}"),
            Ok(Found::Verdict(verdict)) => print!(rt; " {} 0 0", verdict as u8),
            Ok(Found::NoMask(ways)) => print!(rt; " {NO_MASK} 0 {ways}"),
            Ok(Found::Spent(most)) => print!(rt; " {SPENT} 0 {most}"),
            Err(refusal) => print!(rt; " {refusal}"),
        }
    }

    // With a limit of 1, and one below, at and one above the ways.
    fn print_limits(self, rt: &impl Print) -> io::Result<()> {
        let ways = self.ways();
        for limit in [1, ways.saturating_sub(1), ways, ways.saturating_add(1)] {
            self.print(rt, limit)?;
        }
        Ok(())
    }
}

// For the rule and the gate of each line behind the head of a table of sites, whatever the head says; and for the largest numbers.
pub fn print_findings(rt: &impl Print, tables: Tables) -> io::Result<()> {
    let search = |rule: u32, gate: u32| Search {
        circuit: tables.circuit,
        rules: tables.rules,
        rule,
        gate,
    };
    let (lines, _) = tables.sites.as_chunks::<3>();
    for [rule, gate, _] in lines.iter().skip(1) {
        search(*rule, *gate).print_limits(rt)?;
    }
    search(1, u32::MAX).print(rt, u32::MAX)?;
    search(u32::MAX, u32::MAX).print(rt, u32::MAX)
}
