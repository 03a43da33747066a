// One number in six columns.
ghost use Rattle.std.specs.Prelude.{◌≡◌, true, ◌&&◌, ◌||◌, ◌%◌, ◌≤◌, eqb, leb, length};
ghost use Rattle.lists.specs.First.{first};
ghost use Rattle.lines.specs.Number.{digit, read_number, write_number, is_number};

// The columns of a number.
pub const COLUMNS: usize = 6;

// What a column adds to its number: a digit's byte is 48 and its value, a blank's is 32, so the rest by 16 needs no test.
fn column_value(byte: u8) -> u32
    ensures { result ≡ byte % 16 }
{
    (byte % 16) as u32
}

// The number that the first six columns show.
pub fn read_number(columns: &[u8]) -> u32
    requires in_bounds { 6 ≤ length columns.now }
    requires text_value { is_number columns.now ≡ true }
    ensures { result ≡ read_number columns.now }
{
    let a = column_value(columns[0]);
    let b = column_value(columns[1]);
    let c = column_value(columns[2]);
    let d = column_value(columns[3]);
    let e = column_value(columns[4]);
    let f = column_value(columns[5]);
    ((((a * 10 + b) * 10 + c) * 10 + d) * 10 + e) * 10 + f
}

// Whether a column can stand behind the one before it: after a blank, a blank or a first digit, which is not 0; after a digit, a digit. Ways
// out are faster than one formula here, since the numbers of a text have few lengths and the processor guesses them.
fn follows(before: u8, byte: u8) -> bool
    ensures { result ≡ first (eqb before 32) (eqb byte 32 || (leb 49 byte && leb byte 57)) (leb 48 byte && leb byte 57) }
{
    if before != 32 {
        return (48 <= byte) & (byte <= 57);
    }
    if byte == 32 {
        return true;
    }
    (49 <= byte) & (byte <= 57)
}

// Whether the first six columns are a number. Looking at each column beside the one before it spares the divisions of writing the number to compare.
pub fn is_number(columns: &[u8]) -> bool
    requires { 6 ≤ length columns.now }
    ensures { result ≡ is_number columns.now }
{
    let a = columns[0];
    let b = columns[1];
    let c = columns[2];
    let d = columns[3];
    let e = columns[4];
    let f = columns[5];
    follows(32, a)
        & follows(a, b)
        & follows(b, c)
        & follows(c, d)
        & follows(d, e)
        & (48 <= f)
        & (f <= 57)
}

// The byte of a column before the last, where `rest` is the number without the columns behind it.
fn column(rest: u32) -> u8
    ensures { result ≡ first (eqb rest 0) 32 (digit (rest % 10)) }
{
    if rest == 0 {
        32
    } else {
        (48 + rest % 10) as u8
    }
}

// Writes a number into six columns, one by one: an array that is copied there is slower, by a fourth of all writing and reading.
pub fn write_number(n: u32, columns: &mut [u8])
    requires { length columns.old ≡ 6 }
    ensures { columns.new ≡ write_number n }
{
    let e = n / 10;
    let d = e / 10;
    let c = d / 10;
    let b = c / 10;
    let a = b / 10;
    columns[0] = column(a);
    columns[1] = column(b);
    columns[2] = column(c);
    columns[3] = column(d);
    columns[4] = column(e);
    columns[5] = (48 + n % 10) as u8;
}
