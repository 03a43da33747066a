// Tables of rules that no refusal applies to, and a rule of such a table, read where it stands.
ghost use Rattle.std.specs.Prelude.{◌≡◌, ◌+◌, ◌-◌, is_some, IfSome};
ghost use Rattle.rules.specs.WellFormed.{WellFormedRule, WellFormedRules};

use crate::table::{closing_from, has_rule, left_from, place, right_from};
use circuit::checked::CONSTANTS;

// The rules that an accepted table says.
#[derive(Clone, Copy)]
pub struct Rules<'a> {
    pub table: &'a [u32],
    ghost well_formed: { WellFormedRules table.now },
}

// The rules' table, and where the rule begins in it.
#[derive(Clone, Copy)]
pub struct Rule<'a> {
    pub table: &'a [u32],
    pub from: usize,
    ghost well_formed: { WellFormedRule table.now from },
}

impl<'a> Rules<'a> {
    ghost use Rattle.rules.specs.Remembered.{Placed};
    ghost use Rattle.rules.specs.Verdict.{has_rule};

    // The rule of a number, sound or not, if there is one.
    pub fn rule(&self, number: u32) -> Option<Rule<'a>>
        ensures there { is_some result ≡ has_rule self.now.table.now number }
        ensures placed { IfSome result (Placed self.now.table.now number) }
    {
        let table = self.table;
        if !has_rule(table, number) {
            return None;
        }
        Some(Rule {
            table,
            from: place(table, number),
        })
    }
}

impl Rule<'_> {
    ghost use Rattle.circuit.specs.Circuit.{first_gate};
    ghost use Rattle.rules.specs.RuleTable.{holes_at, lefts_at, rights_at, left_from, right_from};
    ghost use Rattle.rules.specs.Remembered.{said};

    pub fn holes(&self) -> u32
        ensures { result ≡ holes_at self.now.table.now self.now.from }
    {
        self.table[self.from]
    }

    // How many gates each side has.
    pub fn lefts(&self) -> u32
        ensures { result ≡ lefts_at self.now.table.now self.now.from }
    {
        self.table[self.from + 1]
    }

    pub fn rights(&self) -> u32
        ensures { result ≡ rights_at self.now.table.now self.now.from }
    {
        self.table[self.from + 2]
    }

    // The reference of each side's first gate.
    pub fn base(&self) -> u32
        ensures { result ≡ first_gate (holes_at self.now.table.now self.now.from) }
    {
        self.holes() + CONSTANTS
    }

    // That of the last left gate.
    pub fn root(&self) -> u32
        ensures { result ≡ first_gate (holes_at self.now.table.now self.now.from) + lefts_at self.now.table.now self.now.from - 1 }
    {
        self.base() + self.lefts() - 1
    }

    // Where the lines of each side's gates begin.
    pub fn left_from(&self) -> usize
        ensures { result ≡ left_from self.now.table.now self.now.from }
    {
        left_from(self.table, self.from)
    }

    pub fn right_from(&self) -> usize
        ensures { result ≡ right_from self.now.table.now self.now.from }
    {
        right_from(self.table, self.from)
    }

    // The reference of the closing line.
    pub fn closing(&self) -> u32
        ensures { result ≡ (said self.now).closing }
    {
        self.table[closing_from(self.table, self.from) + 1]
    }
}
