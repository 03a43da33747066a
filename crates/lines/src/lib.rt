// Texts of lines of three numbers, and tables of the same numbers (01, Lines). Nothing here knows what the numbers mean.
#![tactic(auto)]

ghost use Rattle.std.specs.Prelude.{◌≡◌};
ghost use Rattle.lines.specs.Calls.{validating, reading, writing};
ghost use Rattle.lines.specs.Refusal.{paper_values, leaving};
ghost use Rattle.lines.specs.Text.{is_partial};

pub mod checked;
mod checking;
mod line;
mod number;
mod record;
mod refusing;
mod text;

use checking::validate_records;
use record::{Line, Row};
pub use refusing::{Reason, Refusal, Table, refuse_if};
use text::convert_records;

// Refusal 1 of a table: it is empty, or not a multiple of 3 numbers.
pub fn is_partial(table: &[u32]) -> bool
    ensures { result ≡ is_partial 3 table.now }
{
    checking::is_partial::<Row>(table)
}

// Tests a whole text of any length: refusal 1, then 3. A success gives the number of lines.
pub fn validate(text: &[u8]) -> Result<usize, Refusal>
    ensures { paper_values result ≡ validating text.now }
{
    validate_records::<Line>(text)
}

// Reads a text into a table. Refusals 1, 3, then 2.
pub fn read(text: &[u8], table: &mut [u32]) -> Result<usize, Refusal>
    ensures { leaving (paper_values result) table.new ≡ reading text.now table.old }
{
    convert_records::<Line>(text, table)
}

// Writes a table as a text. Refusals 1, 3, then 2.
pub fn write(table: &[u32], text: &mut [u8]) -> Result<usize, Refusal>
    ensures { leaving (paper_values result) text.new ≡ writing table.now text.old }
{
    convert_records::<Row>(table, text)
}
