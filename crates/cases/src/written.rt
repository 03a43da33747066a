// 02, 2026-03: the registers that a program writes.
use crate::machine::{AND, LOAD, XOR};
use std::mem;
use translator::MAX_REGISTERS;

// Operations and loads write a register, emits none.
fn is_write(opcode: u32) -> bool {
    matches!(opcode, XOR | AND | LOAD)
}

// Marks a register, and answers whether it was not yet. There is no mark for one that no limit allows, which counts each time.
fn is_newly_marked(marks: &mut [bool], register: u32) -> bool {
    match marks.get_mut(register as usize) {
        Some(mark) => !mem::replace(mark, true),
        None => true,
    }
}

// How many different registers a program writes.
pub fn count_written(program: &[u32]) -> usize {
    let mut marks = [false; MAX_REGISTERS];
    let (instructions, _) = program.as_chunks::<4>();
    instructions
        .iter()
        .filter(|[opcode, register, _, _]| {
            is_write(*opcode) && is_newly_marked(&mut marks, *register)
        })
        .count()
}
