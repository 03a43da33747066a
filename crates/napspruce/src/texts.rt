// Texts that become tables.
ghost use Rattle.std.specs.Prelude.{◌≡◌, Some, [], ◌∷◌, ◌+◌, ◌*◌, ◌/◌, ◌≤◌, length, take, drop};
ghost use Rattle.lines.specs.Calls.{over};
ghost use Rattle.lines.specs.Checks.{found, first_found};
ghost use Rattle.lines.specs.Refusal.{found_by, table_number};
ghost use Rattle.lines.specs.Text.{read_text};
ghost use Rattle.circuit.specs.Table.{starts};
ghost use Rattle.napspruce.specs.Front.{shortened, max_circuit_read};
ghost use Rattle.napspruce.specs.ListingCall.{text_refusal};

use circuit::checked::{MAX_GATES, MAX_INPUTS, MAX_OUTPUTS, START};
use lines::checked::{read_lines, read_number};
use lines::{Refusal, Table, validate};

// As many starting lines as are read of a circuit's text, and as many of the lines behind them: one more than its table can have of each.
const STARTS_READ: usize = MAX_INPUTS as usize + 1;

const REST_READ: usize = (MAX_GATES + MAX_OUTPUTS) as usize + 1;

// As many lines as are read of it in all.
pub const CIRCUIT_LINES: usize = 1 + STARTS_READ + REST_READ;

// Refusal 1, then 3, of a whole text of any length, as a fault of the table that is to be read of it.
pub fn check_text(text: &[u8], table: Table) -> Result<usize, Refusal>
    ensures { found_by result ≡ first_found (found (text_refusal text.now) (table_number (Some table)) ∷ []) }
{
    validate(text).map_err(|refusal| Refusal {
        table: Some(table),
        ..refusal
    })
}

// How many lines right after the first begin with 4, of a well-written text.
fn text_starts(text: &[u8]) -> usize
    requires { text_refusal text.now ≡ 0 }
    ensures { result ≡ starts (read_text text.now) }
{
    let lines = text.len() / 19;
    for i in 1..lines {
        if read_number(text, 19 * i) != START {
            return i - 1;
        }
    }
    lines - 1
}

// Reads the lines of a well-written text from line `from` on, at most `most` of them, over the front of the table. The result is how many
// numbers they are.
fn read_from(text: &[u8], from: usize, table: &mut [u32], most: usize) -> usize
    requires text_value { text_refusal text.now ≡ 0 }
    requires from_in_bounds { 3 * from ≤ length (read_text text.now) }
    requires most_in_bounds { 3 * most ≤ length table.old }
    ensures value { result ≡ length (take (3 * most) (drop (3 * from) (read_text text.now))) }
    ensures table_after { table.new ≡ over (take (3 * most) (drop (3 * from) (read_text text.now))) table.old }
{
    let count = most.min(text.len() / 19 - from);
    read_lines(&text[19 * from..], table, count);
    3 * count
}

// Reads the first lines of a well-written text, as many as the table has room for, and gives their numbers.
pub fn read_front<'a>(text: &[u8], table: &'a mut [u32]) -> &'a [u32]
    requires { text_refusal text.now ≡ 0 }
    ensures { result.now ≡ take (3 * (length table.old / 3)) (read_text text.now) }
{
    let end = read_from(text, 0, table, table.len() / 3);
    &table[..end]
}

// Reads what is needed of a circuit's text, and gives its numbers.
pub fn read_circuit<'a>(text: &[u8], table: &'a mut [u32]) -> &'a [u32]
    requires text_value { text_refusal text.now ≡ 0 }
    requires max_circuit_read_in_bounds { 3 * max_circuit_read ≤ length table.old }
    ensures { result.now ≡ shortened (read_text text.now) }
{
    let starts = text_starts(text);
    let end = read_from(text, 0, table, 1 + starts.min(STARTS_READ));
    let behind = read_from(text, 1 + starts, &mut table[end..], REST_READ);
    &table[..end + behind]
}
