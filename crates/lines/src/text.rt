// Whole texts and tables, record by record.
ghost use Rattle.std.specs.Prelude.{◌≡◌, true, ◌++◌, ◌*◌, ◌≤◌, length, drop};
ghost use Rattle.lists.specs.Records.{map_records, all_records};
ghost use Rattle.lines.specs.Calls.{conversion};
ghost use Rattle.lines.specs.Refusal.{paper_values, leaving};
ghost use Rattle.lines.specs.Line.{is_line, is_row, read_line, write_line};

use crate::checking::validate_records;
use crate::record::{Line, Record, Row};
use crate::refusing::{Reason, Refusal, refuse_if};

// Turns the first `count` records, and puts what they give in the front of the buffer. The loop counts: a proof does not know what was
// written through `chunks_exact_mut`.
fn turn_records<R: Record>(source: &[R::Item], buffer: &mut [R::Other], count: usize)
    requires source_in_bounds { R.SIZE * count ≤ length source.now }
    requires ready { all_records R.ready R.SIZE count source.now ≡ true }
    requires buffer_in_bounds { R.WIDTH * count ≤ length buffer.old }
    ensures { buffer.new ≡ map_records R.turned R.SIZE count source.now ++ drop (R.WIDTH * count) buffer.old }
{
    for i in 0..count {
        let at = R::WIDTH * i;
        R::turn(&source[R::SIZE * i..], &mut buffer[at..at + R::WIDTH]);
    }
}

// Turns all records. Refusals 1, 3, then 2.
pub fn convert_records<R: Record>(
    source: &[R::Item],
    buffer: &mut [R::Other],
) -> Result<usize, Refusal>
    ensures { leaving (paper_values result) buffer.new ≡ conversion R.SIZE R.WIDTH R.right R.turned source.now buffer.old }
{
    let count = validate_records::<R>(source)?;
    refuse_if(
        buffer.len() / R::WIDTH < count,
        Reason::BufferTooShort,
        None,
    )?;
    turn_records::<R>(source, buffer, count);
    Ok(count)
}

// Reads the first `lines` lines, which are well written, into the front of the table.
pub fn read_lines(text: &[u8], table: &mut [u32], lines: usize)
    requires lines_in_bounds { 19 * lines ≤ length text.now }
    requires text_value { all_records is_line 19 lines text.now ≡ true }
    requires lines_in_bounds_2 { 3 * lines ≤ length table.old }
    ensures { table.new ≡ map_records read_line 19 lines text.now ++ drop (3 * lines) table.old }
{
    turn_records::<Line>(text, table, lines)
}

// Writes the first `rows` rows into the front of the text.
pub fn write_lines(table: &[u32], text: &mut [u8], rows: usize)
    requires rows_in_bounds { 3 * rows ≤ length table.now }
    requires rows_in_bounds_2 { 19 * rows ≤ length text.old }
    ensures { text.new ≡ map_records write_line 3 rows table.now ++ drop (19 * rows) text.old }
{
    turn_records::<Row>(table, text, rows)
}
