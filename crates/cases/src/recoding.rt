// A text read into a table and written back.
ghost use Rattle.std.specs.Prelude.{◌≡◌, ◌≤◌, length};
ghost use Rattle.lines.specs.Refusal.{paper_values, leaving};
ghost use Rattle.lines.specs.Calls.{reading};
ghost use Rattle.cases.specs.Recoding.{recoding};

use lines::Refusal;

// Reads a text and writes what was read: by the laws of the lines, the text comes back.
pub fn recode(text: &[u8], table: &mut [u32], out: &mut [u8]) -> Result<usize, Refusal>
    ensures out_after { leaving (paper_values result) out.new ≡ recoding text.now table.old out.old }
    ensures table_after { table.new ≡ (reading text.now table.old).buffers }
{
    let lines = lines::read(text, table)?;
    lines::write(&table[..3 * lines], out)
}

// Reads a text, and answers the numbers that it has left in the table: none if it was refused.
pub fn read_numbers<'a>(text: &[u8], table: &'a mut [u32]) -> &'a [u32]
    ensures { length result.now ≤ length table.old }
{
    match lines::read(text, table) {
        Ok(lines) => &table[..3 * lines],
        Err(_) => &[],
    }
}
