// The register machine of 01 and 02, to run what `translate` wrote.
use circuit::checked::{CONSTANTS, Kind, START};
use std::io;
use translator::MAX_REGISTERS;

// The largest limit.
pub const MAX_LIMIT: u32 = MAX_REGISTERS as u32;

// The opcode of an operation is the kind of its gate.
pub const AND: u32 = Kind::And as u32;

pub const XOR: u32 = Kind::Xor as u32;

const EMIT: u32 = 3;

pub const LOAD: u32 = 4;

// What a register holds.
#[derive(Clone, Copy)]
struct Value {
    bit: bool,
    level: u32,
    is_public: bool,
}

impl Value {
    fn xor(self, other: Self) -> Self {
        Self {
            bit: self.bit ^ other.bit,
            level: self.level.max(other.level),
            is_public: false,
        }
    }

    // A public operand spares an AND its level (02, 2026-06).
    fn and(self, other: Self) -> Self {
        let level = self.level.max(other.level);
        Self {
            bit: self.bit & other.bit,
            level: if self.is_public | other.is_public {
                level
            } else {
                level.saturating_add(1)
            },
            is_public: false,
        }
    }
}

// Why a run ends before its program does: an instruction that the machine has no meaning for, or an output that is lost.
#[derive(Drop)]
enum Stop {
    Fault,
    Output(io::Error),
}

impl From<io::Error> for Stop {
    fn from(error: io::Error) -> Self {
        Stop::Output(error)
    }
}

// The level that a starting line of the circuit gives for a constant or an input, else 0.
fn start_level(circuit: &[u32], reference: u32) -> u32 {
    let (lines, _) = circuit.as_chunks::<3>();
    lines
        .iter()
        .skip(1)
        .take_while(|[kind, _, _]| *kind == START)
        .find(|[_, start, _]| *start == reference)
        .map_or(0, |[_, _, level]| *level)
}

// A machine with as many registers as the slice has places; an empty one is None.
#[derive(Drop)]
struct Machine<'a> {
    circuit: &'a [u32],
    inputs: &'a [u8],
    registers: &'a mut [Option<Value>],
}

impl Machine<'_> {
    // What a constant or an input is loaded as.
    fn start(&self, reference: u32) -> Result<Value, Stop> {
        let bit = match reference.checked_sub(CONSTANTS) {
            None => reference == 1,
            Some(input) => *self.inputs.get(input as usize).ok_or(Stop::Fault)? != 0,
        };
        Ok(Value {
            bit,
            level: start_level(self.circuit, reference),
            is_public: reference < CONSTANTS,
        })
    }

    fn read(&self, register: u32) -> Result<Value, Stop> {
        match self.registers.get(register as usize) {
            Some(Some(value)) => Ok(*value),
            _ => Err(Stop::Fault),
        }
    }

    fn write(&mut self, register: u32, value: Value) -> Result<(), Stop> {
        let place = self
            .registers
            .get_mut(register as usize)
            .ok_or(Stop::Fault)?;
        *place = Some(value);
        Ok(())
    }

    fn emit(&self, rt: &impl Print, register: u32) -> Result<(), Stop> {
        let Value { bit, level, .. } = self.read(register)?;
        let bit = u8::from(bit);
        print!(rt; " {bit} {level}")?;
        Ok(())
    }

    fn perform(&mut self, rt: &impl Print, instruction: [u32; 4]) -> Result<(), Stop> {
        match instruction {
            [XOR, to, a, b] => self.write(to, self.read(a)?.xor(self.read(b)?)),
            [AND, to, a, b] => self.write(to, self.read(a)?.and(self.read(b)?)),
            [EMIT, register, 0, 0] => self.emit(rt, register),
            [LOAD, to, reference, 0] => self.write(to, self.start(reference)?),
            _ => Err(Stop::Fault),
        }
    }

    fn run(&mut self, rt: &impl Print, program: &[u32]) -> Result<(), Stop> {
        let (instructions, _) = program.as_chunks::<4>();
        for instruction in instructions {
            self.perform(rt, *instruction)?;
        }
        Ok(())
    }
}

// Runs a program of the circuit on a machine with `limit` registers, and prints a bit and a level an emit.
pub fn print_run(
    rt: &impl Print,
    circuit: &[u32],
    program: &[u32],
    limit: u32,
    inputs: &[u8],
) -> io::Result<()> {
    let mut registers = [None; MAX_REGISTERS];
    let Some(registers) = registers.get_mut(..limit as usize) else {
        return Ok(());
    };
    let mut machine = Machine {
        circuit,
        inputs,
        registers,
    };
    match machine.run(rt, program) {
        Ok(()) => Ok(()),
        Err(Stop::Fault) => print!(rt; " fault"),
        Err(Stop::Output(error)) => Err(error),
    }
}
