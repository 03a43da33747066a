// Files that arguments name.
ghost use Rattle.std.specs.Prelude.{◌≤◌, length};

use crate::recoding::read_numbers;
use files::load;
use std::rt::{Env, Files};

// As many bytes as hold any path.
pub const NAME: usize = 4096;

// The bytes of argument i, none if it is missing or longer than the buffer.
pub fn read_argument<'a>(rt: &impl Env, i: usize, name: &'a mut [u8]) -> &'a [u8]
    ensures { length result.now ≤ length name.old }
{
    match rt.arg(i, name) {
        Ok(length) => name.get(..length).unwrap_or(&[]),
        Err(_) => &[],
    }
}

// The bytes of the file that argument i names, as many as the buffer has at most.
pub fn load_argument<'a>(rt: &(impl Env + Files), i: usize, buffer: &'a mut [u8]) -> &'a [u8]
    ensures { length result.now ≤ length buffer.old }
{
    let mut name = [0u8; NAME];
    load(rt, read_argument(rt, i, &mut name), buffer)
}

// Reads it as a text into a table: no numbers if it was refused.
pub fn read_file<'a>(rt: &(impl Env + Files), i: usize, table: &'a mut [u32]) -> &'a [u32]
    ensures { length result.now ≤ length table.old }
{
    let mut text = [0u8; 262144];
    read_numbers(load_argument(rt, i, &mut text), table)
}
