// Registers for the values of a circuit, and the instructions that put them there: gate by gate, then for the outputs, and their emits.
ghost use Rattle.std.specs.Prelude.{◌≡◌, ℕ, suc, true, ◌+◌, ◌<◌, ◌≤◌, ◌++◌, [], ◌∷◌, length};
ghost use Rattle.circuit.specs.Circuit.{max_references, gate_of};
ghost use Rattle.circuit.specs.Path.{is_among, is_output};
ghost use Rattle.circuit.specs.Table.{gates, outputs, decode};
ghost use Rattle.circuit.specs.WellFormed.{WellFormed};
ghost use Rattle.translator.specs.Machine.{max_registers};
ghost use Rattle.translator.specs.Instructions.{said_by};
ghost use Rattle.translator.specs.Need.{need};
ghost use Rattle.translator.specs.LiveRange.{is_used_from};
ghost use Rattle.translator.specs.Program.{emits, max_instructions};
ghost use Rattle.translator.specs.Allocation.{no_registers, operated};
ghost use Rattle.translator.specs.Allocator.{ensure_loaded, turned, outputs_loaded, allocation_at_end};
ghost use Rattle.translator.specs.Registers.{instruction_at, allocation_with, code_of, allocation_of, Beyond, Represents, Loadable, Operable, Turnable};

use crate::last_use::LiveRanges;
use crate::registers::Registers;
use crate::writing::Instruction;
use circuit::checked::{Circuit, Gate};

// The registers in use, and the program that fills them, of which so many instructions are written.
#[derive(Drop)]
pub struct Allocator<'a> {
    pub registers: Registers<'a>,
    pub program: &'a mut [u32],
    pub written: usize,
}

impl<'a> Allocator<'a> {
    // No instruction is written yet.
    pub fn new(registers: Registers<'a>, program: &'a mut [u32]) -> Self
        requires { allocation_with registers [] ≡ no_registers }
        ensures none { allocation_of result ≡ no_registers }
        ensures same_program { result.program.ghost_name ≡ program.entry.ghost_name }
        ensures same_numbers { result.program.now ≡ program.entry.now }
    {
        Allocator {
            registers,
            program,
            written: 0,
        }
    }

    // One instruction more.
    fn push(&mut self, instruction: Instruction)
        requires { instruction_at (self.old.written + 1) ≤ length self.old.program.now }
        ensures same_program { self.new.program.ghost_name ≡ self.old.program.ghost_name }
        ensures same_registers { self.new.registers ≡ self.old.registers }
        ensures code { code_of self.new ≡ code_of self.old ++ said_by instruction ∷ [] }
        ensures written { self.new.written ≡ self.old.written + 1 }
        ensures beyond { Beyond self.old.program.now self.new.program.now self.new.written }
    {
        let at = 4 * self.written;
        self.program[at..at + 4].copy_from_slice(&instruction.numbers());
        self.written += 1;
    }

    // v is loaded, if it is in no register.
    fn ensure_loaded(&mut self, v: usize)
        requires v_lt_max_references { v < max_references }
        requires loadable { Loadable v (allocation_of self.old) }
        requires code_in_bounds { instruction_at (length (ensure_loaded v (allocation_of self.old)).code) ≤ length self.old.program.now }
        ensures same_program { self.new.program.ghost_name ≡ self.old.program.ghost_name }
        ensures allocation { Represents self.new self.old (ensure_loaded v (allocation_of self.old)) }
    {
        if self.registers.holds(v) {
            return;
        }
        let register = self.registers.take(v);
        self.push(Instruction::Load {
            register,
            reference: v as u32,
        });
    }

    // The operation of a gate, whose operands are in registers: they are read, and if `number`, which is the gate's counted from 1, is their
    // last use, their registers are free before v, the gate's value, takes one.
    fn operate(&mut self, ranges: &LiveRanges<'_>, gate: Gate, v: usize, number: u16)
        requires left_lt_v { (gate.left < v) × (gate.right < v) × (v < max_references) }
        requires number_bound { number ≤ gates ranges.now.circuit }
        requires operable { Operable (is_used_from (decode ranges.now.circuit) number) v (gate_of gate) (allocation_of self.old) }
        requires written_in_bounds { instruction_at (self.old.written + 1) ≤ length self.old.program.now }
        ensures same_program { self.new.program.ghost_name ≡ self.old.program.ghost_name }
        ensures allocation { Represents self.new self.old (operated (is_used_from (decode ranges.now.circuit) number) v (gate_of gate) (allocation_of self.old)) }
    {
        let left = self.registers.register_of(gate.left as usize);
        let right = self.registers.register_of(gate.right as usize);
        let (keep_left, keep_right) = ranges.kept(gate, number);
        self.registers.release(keep_left, gate.left as usize);
        self.registers.release(keep_right, gate.right as usize);
        let result = self.registers.take(v);
        self.push(Instruction::Operate {
            kind: gate.kind,
            register: result,
            left,
            right,
        });
    }

    // One gate: its operands are loaded, the left one first, and its operation is done.
    fn gate_turn(&mut self, ranges: &LiveRanges<'_>, gate: Gate, v: usize, number: u16)
        requires left_lt_v { (gate.left < v) × (gate.right < v) × (v < max_references) }
        requires number_bound { number ≤ gates ranges.now.circuit }
        requires turnable { Turnable (is_used_from (decode ranges.now.circuit) number) v (gate_of gate) (allocation_of self.old) (length self.old.program.now) }
        ensures same_program { self.new.program.ghost_name ≡ self.old.program.ghost_name }
        ensures allocation { Represents self.new self.old (turned (is_used_from (decode ranges.now.circuit) number) v (gate_of gate) (allocation_of self.old)) }
    {
        self.ensure_loaded(gate.left as usize);
        self.ensure_loaded(gate.right as usize);
        self.operate(ranges, gate, v, number);
    }

    // All gates in order. The circuit is taken up anew, as a local value, which no turn has to read behind `ranges` again.
    pub fn allocate_gates(&mut self, ranges: &LiveRanges<'_>)
        requires need_bound { need (decode ranges.now.circuit) ≤ max_registers }
        requires none { allocation_of self.old ≡ no_registers }
        requires max_instructions_in_bounds { instruction_at max_instructions ≤ length self.old.program.now }
        ensures same_program { self.new.program.ghost_name ≡ self.old.program.ghost_name }
        ensures allocation { Represents self.new self.old (outputs_loaded (decode ranges.now.circuit) 0) }
        ensures well_formed { WellFormed ranges.now.circuit }
    {
        let circuit = Circuit::of(ranges.circuit.table());
        let first = circuit.first_gate() as usize;
        for i in 0..circuit.gates() {
            self.gate_turn(ranges, circuit.gate(i), first + i, i as u16 + 1);
        }
    }

    // What only outputs use is loaded, in output order.
    pub fn load_outputs(&mut self, ranges: &LiveRanges<'_>)
        requires need_bound { need (decode ranges.now.circuit) ≤ max_registers }
        requires start_value { allocation_of self.old ≡ outputs_loaded (decode ranges.now.circuit) 0 }
        requires max_instructions_in_bounds { instruction_at max_instructions ≤ length self.old.program.now }
        ensures same_program { self.new.program.ghost_name ≡ self.old.program.ghost_name }
        ensures allocation { Represents self.new self.old (allocation_at_end (decode ranges.now.circuit)) }
    {
        for j in 0..ranges.circuit.outputs() {
            self.ensure_loaded(ranges.circuit.output(j));
        }
    }

    // The emits of the outputs, whose values are in registers.
    pub fn write_emits(&mut self, circuit: &Circuit<'_>)
        requires held { (v : ℕ) → is_output (decode circuit.now) v ≡ true → is_among (suc v) (allocation_of self.old).owners ≡ true }
        requires emits_in_bounds { instruction_at (self.old.written + outputs circuit.now) ≤ length self.old.program.now }
        ensures same_program { self.new.program.ghost_name ≡ self.old.program.ghost_name }
        ensures code { code_of self.new ≡ code_of self.old ++ emits (allocation_of self.old).owners (decode circuit.now).outputs }
        ensures beyond { Beyond self.old.program.now self.new.program.now self.new.written }
    {
        for k in 0..circuit.outputs() {
            let register = self.registers.register_of(circuit.output(k));
            self.push(Instruction::Emit { register });
        }
    }
}
