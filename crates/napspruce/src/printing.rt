// What the program prints.
ghost use Rattle.std.specs.Prelude.{◌≡◌, [], ◌∷◌, ◌≤◌, length};
ghost use Rattle.lines.specs.Calls.{over};
ghost use Rattle.lines.specs.Refusal.{reason_number, table_number};
ghost use Rattle.lines.specs.Text.{write_table};
ghost use Rattle.napspruce.specs.Printed.{refusal_kind, printed};

use crate::listing::{MAX_LISTING, list};
use crate::numbers::Head;
use lines::Refusal;
use lines::checked::write_lines;

// The line of a refusal over the front of the buffer. The result is how many bytes it has.
fn write_refusal(refusal: Refusal, out: &mut [u8]) -> usize
    requires { 19 ≤ length out.old }
    ensures value { result ≡ length (write_table
        (refusal_kind ∷ reason_number refusal.reason ∷ table_number refusal.table ∷ [])) }
    ensures out_after { out.new ≡ over (write_table
        (refusal_kind ∷ reason_number refusal.reason ∷ table_number refusal.table ∷ [])) out.old }
{
    let line = [
        Head::Refusal as u32,
        refusal.number(),
        refusal.table_number(),
    ];
    write_lines(&line, out, 1);
    19
}

// The listing of three texts, or the line of the refusal, over the front of the buffer. The result is how many bytes it has.
pub fn print_listing(
    circuit: &[u8],
    rules: &[u8],
    sites: &[u8],
    out: &mut [u8; MAX_LISTING],
) -> usize
    ensures value { result ≡ length (printed circuit.now rules.now sites.now) }
    ensures out_after { out.new ≡ over (printed circuit.now rules.now sites.now) out.old }
{
    match list(circuit, rules, sites, out) {
        Ok(length) => length,
        Err(refusal) => write_refusal(refusal, out),
    }
}
