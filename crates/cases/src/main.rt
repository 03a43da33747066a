// Tries cases. Each is three files that arguments name, a circuit, rules and sites, of which any may be missing. The first is tried as a
// text of lines, read and written back, and as a circuit, measured, evaluated and translated; the rules are judged; each site is matched, and
// a mask is looked for there; the circuit is rewritten at all sites in order; and last comes what the program `depth_rewriter` prints for the
// three files.
#![tactic(auto)]

use circuit::checked::MAX_TABLE;
use files::{Case, print_files};
use finding::print_findings;
use inspecting::{print_evaluations, print_pair};
use loading::{NAME, load_argument, read_argument, read_file};
use matching::{print_judgements, print_matches};
use printing::print_lines;
use recoding::recode;
use rewrites::print_rewriting;
use rules::checked::MAX_SITES;
use std::env::FillError;
use std::io;
use std::rt::{Env, Files};
use translations::{print_short_program, print_translations};

mod finding;
mod inspecting;
mod loading;
mod machine;
mod matching;
mod printing;
mod recoding;
mod rewrites;
mod translations;
mod written;

// The tables that the calls are given.
type Tables<'a> = Case<&'a [u32]>;

// As many numbers as a table of sites has at most.
const MAX_SITES_TABLE: usize = 3 * (1 + MAX_SITES as usize);

// How many arguments the program was started with, its own name among them.
fn argument_count(rt: &impl Env) -> usize {
    let mut buffer = [0u8; 1];
    (0..usize::MAX)
        .find(|i| matches!(rt.arg(*i, &mut buffer), Err(FillError::NotPresent)))
        .unwrap_or(usize::MAX)
}

fn print_name(rt: &(impl Env + Print), i: usize) -> io::Result<()> {
    rt.write_all(read_argument(rt, i, &mut [0u8; NAME]))
}

// Validates a text, and reads and writes it. The table has room for four lines only, so that a longer text is refused with 2.
fn print_recoding(rt: &impl Print, text: &[u8]) -> io::Result<()> {
    let mut table = [0u32; 12];
    let mut out = [0u8; 76];
    print!(rt; ": validate")?;
    print_lines(rt, lines::validate(text))?;
    print!(rt; ", read and write")?;
    print_lines(rt, recode(text, &mut table, &mut out))
}

fn try_text(rt: &(impl Env + Files + Print), i: usize) -> io::Result<()> {
    let mut text = [0u8; 262144];
    print_recoding(rt, load_argument(rt, i, &mut text))
}

// Measures, evaluates and translates.
fn try_circuit(rt: &(impl Env + Files + Print), i: usize) -> io::Result<()> {
    let mut table = [0u32; 10347];
    let circuit = read_file(rt, i, &mut table);
    print!(rt; ", measure")?;
    print_pair(rt, circuit)?;
    print!(rt; ", evaluate")?;
    print_evaluations(rt, circuit)?;
    print!(rt; ", translate")?;
    print_translations(rt, circuit)?;
    print_short_program(rt, circuit)
}

// Judges the rules, matches the sites, looks for their masks, and rewrites the circuit at them.
fn print_calls(rt: &impl Print, tables: Tables) -> io::Result<()> {
    print!(rt; ", judge")?;
    print_judgements(rt, tables.rules)?;
    print!(rt; ", match")?;
    print_matches(rt, tables)?;
    print!(rt; ", find")?;
    print_findings(rt, tables)?;
    print!(rt; ", rewrite")?;
    print_rewriting(rt, tables)
}

fn try_tables(rt: &(impl Env + Files + Print), case: Case<usize>) -> io::Result<()> {
    let mut circuit = [0u32; MAX_TABLE];
    let mut rules = [0u32; MAX_TABLE];
    let mut sites = [0u32; MAX_SITES_TABLE];
    let tables = Case {
        circuit: read_file(rt, case.circuit, &mut circuit),
        rules: read_file(rt, case.rules, &mut rules),
        sites: read_file(rt, case.sites, &mut sites),
    };
    print_calls(rt, tables)
}

// The very code that the program `depth_rewriter` runs, but for the names.
fn try_files(rt: &(impl Env + Files + Print + Eprint), case: Case<usize>) {
    let mut circuit = [0u8; NAME];
    let mut rules = [0u8; NAME];
    let mut sites = [0u8; NAME];
    let names = Case {
        circuit: read_argument(rt, case.circuit, &mut circuit),
        rules: read_argument(rt, case.rules, &mut rules),
        sites: read_argument(rt, case.sites, &mut sites),
    };
    print_files(rt, names);
}

fn print_names(rt: &(impl Env + Print), case: Case<usize>) -> io::Result<()> {
    print_name(rt, case.circuit)?;
    print!(rt; " ")?;
    print_name(rt, case.rules)?;
    print!(rt; " ")?;
    print_name(rt, case.sites)
}

// The case of the files that these arguments name.
fn try_case(rt: &(impl Env + Files + Print + Eprint), case: Case<usize>) -> io::Result<()> {
    print_names(rt, case)?;
    try_text(rt, case.circuit)?;
    try_circuit(rt, case.circuit)?;
    try_tables(rt, case)?;
    print!(rt; ", listing\n")?;
    try_files(rt, case);
    Ok(())
}

fn main(rt: HostRuntime) -> io::Result<()> {
    let cases = argument_count(&rt) / 3;
    for n in 0..cases {
        let case = Case {
            circuit: 3 * n + 1,
            rules: 3 * n + 2,
            sites: 3 * n + 3,
        };
        try_case(&rt, case)?;
    }
    Ok(())
}
