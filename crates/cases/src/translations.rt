// What the call `translate` gives for a table.
use crate::inspecting::{input_count, pattern};
use crate::machine::{MAX_LIMIT, print_run};
use crate::written::count_written;
use std::io;
use translator::{PROGRAM_NUMBERS, Translation};

// Limits about as large as small circuits need, and those at both ends of what is allowed.
const LIMITS: [u32; 9] = [0, 1, 2, 3, 4, 6, 10, MAX_LIMIT, MAX_LIMIT + 1];

fn print_translation(rt: &impl Print, circuit: &[u32], limit: u32) -> io::Result<()> {
    let mut program = [0u32; PROGRAM_NUMBERS];
    match translator::translate(circuit, limit, &mut program) {
        Ok(Translation { instructions, need }) => {
            // What stands behind the program is still zeros, which write nothing.
            let written = count_written(&program);
            print!(rt; " {instructions} {need} {written}")
        }
        Err(refusal) => print!(rt; " {refusal}"),
    }
}

pub fn print_translations(rt: &impl Print, circuit: &[u32]) -> io::Result<()> {
    for limit in LIMITS {
        print_translation(rt, circuit, limit)?;
    }
    Ok(())
}

// A program that is short enough to be read is printed whole, and run with no more registers than its need.
const SHORT: u32 = 25;

fn print_program(rt: &impl Print, program: &[u32]) -> io::Result<()> {
    print!(rt; ", program")?;
    for number in program {
        print!(rt; " {number}")?;
    }
    Ok(())
}

fn print_short(rt: &impl Print, circuit: &[u32], program: &[u32], need: u32) -> io::Result<()> {
    print_program(rt, program)?;
    let inputs = input_count(circuit);
    for number in [3, 1] {
        print!(rt; ", run")?;
        print_run(rt, circuit, program, need, &pattern(number)[..inputs])?;
    }
    Ok(())
}

pub fn print_short_program(rt: &impl Print, circuit: &[u32]) -> io::Result<()> {
    let mut program = [0u32; PROGRAM_NUMBERS];
    match translator::translate(circuit, MAX_LIMIT, &mut program) {
        Ok(Translation { instructions, need }) if instructions < SHORT => {
            print_short(rt, circuit, &program[..4 * instructions as usize], need)
        }
        _ => Ok(()),
    }
}
