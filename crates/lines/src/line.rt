// One line, and the row of three numbers that it shows.
ghost use Rattle.std.specs.Prelude.{◌≡◌, true, ◌≤◌, length};
ghost use Rattle.lines.specs.Line.{is_row, is_line, read_line, write_line};

use crate::number::{COLUMNS, is_number, read_number, write_number};

// The bytes of a line, and the numbers of a row.
pub const LINE: usize = 19;

pub const ROW: usize = 3;

// The greatest number that six columns show.
const MAX_NUMBER: u32 = 999_999;

// Where the second and the third number of a line begin, and its last byte.
const SECOND: usize = COLUMNS;

const THIRD: usize = 2 * COLUMNS;

const END: usize = 3 * COLUMNS;

// Whether the first 19 bytes are a line.
pub fn is_line(line: &[u8]) -> bool
    requires { 19 ≤ length line.now }
    ensures { result ≡ is_line line.now }
{
    let a = is_number(line);
    let b = is_number(&line[SECOND..]);
    let c = is_number(&line[THIRD..]);
    let end = line[END] == 10;
    a & b & c & end
}

// Whether the first three numbers can be written.
pub fn is_row(row: &[u32]) -> bool
    requires { 3 ≤ length row.now }
    ensures { result ≡ is_row row.now }
{
    let a = row[0] <= MAX_NUMBER;
    let b = row[1] <= MAX_NUMBER;
    let c = row[2] <= MAX_NUMBER;
    a & b & c
}

// Reads a line into a row.
pub fn read_line(line: &[u8], row: &mut [u32])
    requires in_bounds { 19 ≤ length line.now }
    requires text_value { is_line line.now ≡ true }
    requires row_length { length row.old ≡ 3 }
    ensures { row.new ≡ read_line line.now }
{
    let a = read_number(line);
    let b = read_number(&line[SECOND..]);
    let c = read_number(&line[THIRD..]);
    row.copy_from_slice(&[a, b, c]);
}

// Writes a row as a line.
pub fn write_line(row: &[u32], line: &mut [u8])
    requires in_bounds { 3 ≤ length row.now }
    requires line_length { length line.old ≡ 19 }
    ensures { line.new ≡ write_line row.now }
{
    write_number(row[0], &mut line[..SECOND]);
    write_number(row[1], &mut line[SECOND..THIRD]);
    write_number(row[2], &mut line[THIRD..END]);
    line[END] = 10;
}
