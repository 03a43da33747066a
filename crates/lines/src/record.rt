// Records, all of one size, that stand one after the other: the lines of a text, or the rows of a table. Each kind is turned into the other.
ghost use Rattle.std.specs.Prelude.{◌≡◌, ℕ, true, Bool, List, ◌++◌, ◌≤◌, ◌<◌, length, refl};
ghost use Rattle.std.proofs.Common.{lit<};
ghost use Rattle.lines.specs.Line.{is_row, is_line, read_line, write_line};
ghost use Rattle.lines.specs.RecordLaws.{row-length, line-length, line_near, row_near};

use crate::line::{LINE, ROW, is_line, is_row, read_line, write_line};

pub trait Record {
    type Item;

    type Other;

    // The length of a record, and of the record that it is turned into.
    const SIZE: usize;

    const WIDTH: usize;

    ghost SIZE: { ℕ };

    ghost WIDTH: { ℕ };

    // The test of a record, and what a record is turned into.
    ghost right: { List Self.Item → Bool };

    ghost turned: { List Self.Item → List Self.Other };

    // What a record has to pass to be turned, which may be less than the test.
    ghost ready: { List Self.Item → Bool };

    fn is_right(part: &[Self::Item]) -> bool
        requires { SIZE ≤ length part.now }
        ensures { result ≡ right part.now };

    fn turn(part: &[Self::Item], other: &mut [Self::Other])
        requires in_bounds { SIZE ≤ length part.now }
        requires ready { ready part.now ≡ true }
        requires width { length other.old ≡ WIDTH }
        ensures { other.new ≡ turned part.now };

    ghost some: { 0 < SIZE };

    ghost other_some: { 0 < WIDTH };

    ghost wide: { (t : List Self.Item) → length (turned t) ≡ WIDTH };

    ghost right_ready: { (t : List Self.Item) → right t ≡ true → ready t ≡ true };

    // Whether a record is right does not depend on what stands behind it.
    ghost right_near: { (t r : List Self.Item) → SIZE ≤ length t → right (t ++ r) ≡ right t };
}

// The lines of a text, read as rows.
pub struct Line;

impl Record for Line {
    type Item = u8;

    type Other = u32;

    const SIZE: usize = LINE;

    const WIDTH: usize = ROW;

    ghost SIZE = { 19 };

    ghost WIDTH = { 3 };

    ghost right = { is_line };

    ghost ready = { is_line };

    ghost turned = { read_line };

    ghost some = { lit< tt };

    ghost other_some = { lit< tt };

    ghost wide = { row-length };

    ghost right_ready = { λ t e. e };

    ghost right_near = { line_near };

    fn is_right(line: &[u8]) -> bool {
        is_line(line)
    }

    fn turn(line: &[u8], row: &mut [u32]) {
        read_line(line, row)
    }
}

// The rows of a table, written as lines.
pub struct Row;

impl Record for Row {
    type Item = u32;

    type Other = u8;

    const SIZE: usize = ROW;

    const WIDTH: usize = LINE;

    ghost SIZE = { 3 };

    ghost WIDTH = { 19 };

    ghost right = { is_row };

    ghost ready = { λ t. true };

    ghost turned = { write_line };

    ghost some = { lit< tt };

    ghost other_some = { lit< tt };

    ghost wide = { line-length };

    ghost right_ready = { λ t e. refl };

    ghost right_near = { row_near };

    fn is_right(row: &[u32]) -> bool {
        is_row(row)
    }

    fn turn(row: &[u32], line: &mut [u8]) {
        write_line(row, line)
    }
}
