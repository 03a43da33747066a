// The listing for three texts.
ghost use Rattle.std.specs.Prelude.{◌≡◌, false, ◌+◌, ◌*◌, ◌≤◌, length, take};
ghost use Rattle.lines.specs.Calls.{over};
ghost use Rattle.lines.specs.Refusal.{leaving, found_by};
ghost use Rattle.lines.specs.Checks.{first_found};
ghost use Rattle.lines.specs.Text.{is_partial, read_text, write_table};
ghost use Rattle.rules.specs.SiteTable.{max_sites};
ghost use Rattle.napspruce.specs.Listing.{listing_lines};
ghost use Rattle.napspruce.specs.ListingCall.{paper_values as listed_values, max_listing, text_refusal, text_checks, tables_outcome, listing_outcome};

use crate::numbers::{Summary, write_summary, write_verdicts};
use crate::texts::{CIRCUIT_LINES, check_text, read_circuit, read_front};
use circuit::checked::{MAX_LINES, MAX_TABLE};
use lines::checked::write_lines;
use lines::{Reason, Refusal, Table, refuse_if};
use rewriting::rewrite;
use rules::checked::{MAX_LEFTS, MAX_RIGHTS, MAX_RULES, MAX_SITES};

// As many lines as are read of a text: one more than its table can have.
const RULES_LINES: usize = 1 + (MAX_RULES * (1 + MAX_LEFTS + MAX_RIGHTS + 1)) as usize + 1;

const SITES_LINES: usize = 1 + MAX_SITES as usize + 1;

// As many lines, numbers and bytes as a listing has at most.
const LISTING_LINES: usize = MAX_LINES + 3 + MAX_SITES as usize;

const LISTING_NUMBERS: usize = 3 * LISTING_LINES;

pub const MAX_LISTING: usize = 19 * LISTING_LINES;

const MAX_VERDICTS: usize = MAX_SITES as usize;

// Writes the listing whose circuit's lines the table begins with. The result is how many bytes it has. How many lines they are stands beside
// the table, since the lines behind them are put into it too.
fn write_listing(
    table: &mut [u32],
    lines: usize,
    s: Summary,
    verdicts: &[u8],
    listing: &mut [u8],
) -> usize
    requires verdicts_in_bounds { 3 * lines + 9 + 3 * length verdicts.now ≤ length table.old }
    requires verdicts_le_max_sites { length verdicts.now ≤ max_sites }
    requires listing_in_bounds { 19 * (lines + 3 + length verdicts.now) ≤ length listing.old }
    ensures value { result ≡ length (write_table (listing_lines (take (3 * lines) table.old) s verdicts.now)) }
    ensures listing_after { listing.new ≡ over
        (write_table (listing_lines (take (3 * lines) table.old) s verdicts.now)) listing.old }
{
    let at = 3 * lines;
    write_summary(table, at, s);
    write_verdicts(table, at + 9, verdicts);
    let rows = lines + 3 + verdicts.len();
    write_lines(table, listing, rows);
    19 * rows
}

// Lists tables of whole lines, in a buffer that has room for any listing.
fn list_tables(
    circuit: &[u32],
    rules: &[u32],
    sites: &[u32],
    listing: &mut [u8],
) -> Result<usize, Refusal>
    requires circuit_value { is_partial 3 circuit.now ≡ false }
    requires rules_value { is_partial 3 rules.now ≡ false }
    requires sites_value { is_partial 3 sites.now ≡ false }
    requires max_listing_in_bounds { max_listing ≤ length listing.old }
    ensures { leaving (listed_values result) listing.new ≡
        tables_outcome circuit.now rules.now sites.now listing.old }
{
    let mut table = [0u32; LISTING_NUMBERS];
    let mut work = [0u32; MAX_TABLE];
    let mut verdicts = [0u8; MAX_VERDICTS];
    let done = rewrite(circuit, rules, sites, &mut table, &mut work, &mut verdicts)?;
    let s = Summary {
        old: done.old,
        new: done.new,
        sites: sites[0],
        kept: done.kept,
    };
    let verdicts = &verdicts[..s.sites as usize];
    let length = write_listing(&mut table, done.lines as usize, s, verdicts, listing);
    Ok(length)
}

// Lists texts that neither refusal 1 nor 3 applies to, in a buffer that has room for any listing.
fn list_accepted(
    circuit: &[u8],
    rules: &[u8],
    sites: &[u8],
    listing: &mut [u8],
) -> Result<usize, Refusal>
    requires circuit_value { text_refusal circuit.now ≡ 0 }
    requires rules_value { text_refusal rules.now ≡ 0 }
    requires sites_value { text_refusal sites.now ≡ 0 }
    requires max_listing_in_bounds { max_listing ≤ length listing.old }
    ensures { leaving (listed_values result) listing.new ≡
        tables_outcome (read_text circuit.now) (read_text rules.now) (read_text sites.now) listing.old }
{
    let mut circuit_table = [0u32; 3 * CIRCUIT_LINES];
    let mut rules_table = [0u32; 3 * RULES_LINES];
    let mut sites_table = [0u32; 3 * SITES_LINES];
    let circuit = read_circuit(circuit, &mut circuit_table);
    let rules = read_front(rules, &mut rules_table);
    let sites = read_front(sites, &mut sites_table);
    list_tables(circuit, rules, sites, listing)
}

// The checks of three texts and a buffer to list them in, before the texts are read.
fn check_list(circuit: &[u8], rules: &[u8], sites: &[u8], listing: &[u8]) -> Result<(), Refusal>
    ensures { found_by result ≡ first_found (text_checks circuit.now rules.now sites.now (length listing.now)) }
{
    check_text(circuit, Table::Circuit)?;
    check_text(rules, Table::Rules)?;
    check_text(sites, Table::Sites)?;
    refuse_if(listing.len() < MAX_LISTING, Reason::BufferTooShort, None)
}

// The listing over the front of the buffer. A success gives how many bytes it has.
pub fn list(
    circuit: &[u8],
    rules: &[u8],
    sites: &[u8],
    listing: &mut [u8],
) -> Result<usize, Refusal>
    ensures { leaving (listed_values result) listing.new ≡
        listing_outcome circuit.now rules.now sites.now listing.old }
{
    check_list(circuit, rules, sites, listing)?;
    list_accepted(circuit, rules, sites, listing)
}
