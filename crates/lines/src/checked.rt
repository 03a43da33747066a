// What crates of this language call and no one else: functions with a `requires`, which the prover asks of every caller.
ghost use Rattle.std.specs.Prelude.{◌≡◌, true, [], ◌∷◌, ◌+◌, ◌≤◌, length, drop};
ghost use Rattle.std.proofs.lemmas.List.Edits.{sets};
ghost use Rattle.lines.specs.Number.{is_number, read_number};

use crate::number;
pub use crate::text::{read_lines, write_lines};

// The number that the six columns from `at` on show.
pub fn read_number(text: &[u8], at: usize) -> u32
    requires at_in_bounds { at + 6 ≤ length text.now }
    requires text_value { is_number (drop at text.now) ≡ true }
    ensures { result ≡ read_number (drop at text.now) }
{
    number::read_number(&text[at..])
}

// The row of three numbers from `at` on.
pub fn write_row(table: &mut [u32], at: usize, a: u32, b: u32, c: u32)
    requires { at + 3 ≤ length table.old }
    ensures { table.new ≡ sets table.old at (a ∷ b ∷ c ∷ []) }
{
    table[at..at + 3].copy_from_slice(&[a, b, c]);
}
