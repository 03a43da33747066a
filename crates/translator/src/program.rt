// The program of a circuit, over the front of the lent buffer, and the call's work on an accepted circuit.
ghost use Rattle.std.specs.Prelude.{◌≡◌, ◌≤◌, length};
ghost use Rattle.lines.specs.Refusal.{leaving};
ghost use Rattle.lines.specs.Calls.{over};
ghost use Rattle.circuit.specs.Circuit.{max_table};
ghost use Rattle.circuit.specs.Table.{table_end, decode};
ghost use Rattle.circuit.specs.Trim.{trim};
ghost use Rattle.circuit.specs.WellFormed.{WellFormed};
ghost use Rattle.translator.specs.Machine.{max_registers};
ghost use Rattle.translator.specs.Need.{need as need_of};
ghost use Rattle.translator.specs.Program.{program, encode_program, max_instructions};
ghost use Rattle.translator.specs.Registers.{instruction_at};
ghost use Rattle.translator.specs.TranslateCall.{program_numbers, need_checks, translated, paper_values as translated_values};

use crate::allocating::Allocator;
use crate::last_use::LiveRanges;
use crate::pressure::need;
use crate::registers::Registers;
use crate::{MAX_REGISTERS, Translation};
use circuit::checked::{Circuit, MAX_REFERENCES, MAX_TABLE, SMALL_TABLE, trim};
use lines::{Reason, Refusal, refuse_if};

// The program of a trimmed circuit, and how many instructions it has.
fn write_program(ranges: &LiveRanges<'_>, buffer: &mut [u32]) -> usize
    requires need_bound { need_of (decode ranges.now.circuit) ≤ max_registers }
    requires max_instructions_in_bounds { instruction_at max_instructions ≤ length buffer.old }
    ensures value { result ≡ length (program (decode ranges.now.circuit)) }
    ensures upper_bound { result ≤ max_instructions }
    ensures buffer_after { buffer.new ≡ over (encode_program (program (decode ranges.now.circuit))) buffer.old }
{
    let mut owner = [0; MAX_REGISTERS];
    let mut freed = [0; MAX_REGISTERS];
    let mut place = [0; MAX_REFERENCES];
    let registers = Registers::new(&mut owner, &mut freed, &mut place);
    let mut allocator = Allocator::new(registers, buffer);
    allocator.allocate_gates(ranges);
    allocator.load_outputs(ranges);
    allocator.write_emits(&ranges.circuit);
    allocator.written
}

// The last test and the work, on a trimmed circuit.
fn translate_trimmed(
    ranges: &LiveRanges<'_>,
    limit: u32,
    buffer: &mut [u32],
) -> Result<Translation, Refusal>
    requires limit_le_max_registers { limit ≤ max_registers }
    requires program_numbers_in_bounds { program_numbers ≤ length buffer.old }
    ensures { leaving (translated_values result) buffer.new ≡
        translated (need_checks limit (decode ranges.now.circuit)) (decode ranges.now.circuit) buffer.old }
{
    let needed = need(ranges);
    refuse_if(limit < needed, Reason::TooFewRegisters, None)?;
    let count = write_program(ranges, buffer);
    Ok(Translation {
        instructions: count as u32,
        need: needed,
    })
}

// The same on any circuit whose table has at most N numbers. It is trimmed first. That it is well-formed is told by its methods alone, and
// none is called here.
fn translate_within<const N: usize>(
    circuit: &Circuit<'_>,
    limit: u32,
    buffer: &mut [u32],
) -> Result<Translation, Refusal>
    requires well_formed { WellFormed circuit.now }
    requires size_bound { N ≤ max_table }
    requires table_in_bounds { table_end circuit.now ≤ N }
    requires limit_le_max_registers { limit ≤ max_registers }
    requires program_numbers_in_bounds { program_numbers ≤ length buffer.old }
    ensures { leaving (translated_values result) buffer.new ≡
        translated (need_checks limit (trim (decode circuit.now))) (trim (decode circuit.now)) buffer.old }
{
    let mut work = [0u32; N];
    let end = trim(circuit, &mut work);
    let mut last = [0; MAX_REFERENCES];
    let ranges = LiveRanges::new(Circuit::of(&work[..end]), &mut last);
    translate_trimmed(&ranges, limit, buffer)
}

// The same on any circuit.
pub fn translate_accepted(
    circuit: &Circuit<'_>,
    limit: u32,
    buffer: &mut [u32],
) -> Result<Translation, Refusal>
    requires limit_le_max_registers { limit ≤ max_registers }
    requires program_numbers_in_bounds { program_numbers ≤ length buffer.old }
    ensures { leaving (translated_values result) buffer.new ≡
        translated (need_checks limit (trim (decode circuit.now))) (trim (decode circuit.now)) buffer.old }
{
    if circuit.table().len() <= SMALL_TABLE {
        translate_within::<SMALL_TABLE>(circuit, limit, buffer)
    } else {
        translate_within::<MAX_TABLE>(circuit, limit, buffer)
    }
}
