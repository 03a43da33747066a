// The job of the program `depth_rewriter`, for files of any names.
#![tactic(auto)]

ghost use Rattle.std.specs.Prelude.{◌≤◌, length};
ghost use Rattle.std.specs.Io.KnownBytes.{Consumes};

use napspruce::listing::MAX_LISTING;
use napspruce::printing::print_listing;
use std::io::Read;
use std::rt::Files;
use std::{fs, str};

// As many bytes of a file as count (01, Marked examples, 2).
const MAX_FILE: usize = 65531;

// What a circuit, rules and sites have each: a name, a text or a table.
#[derive(Clone, Copy)]
pub struct Case<T> {
    pub circuit: T,
    pub rules: T,
    pub sites: T,
}

// Reads until the buffer is full, the file ends or a read fails. The result is what the file had next. `read_exact` and `io::copy` do not say
// how much came before a read that fails, so the loop is written out.
fn read_full<'a, F: Read>(file: &mut F, buffer: &'a mut [u8]) -> &'a [u8]
    ensures in_bounds { length result.now ≤ length buffer.old }
    ensures bytes { Consumes (F.remaining file.old) (F.remaining file.new) result.now }
{
    let mut done: usize = 0;
    while done < buffer.len() {
        match file.read(&mut buffer[done..]) {
            Ok(0) => break,
            Ok(count) => done += count,
            Err(_) => break,
        }
    }
    &buffer[..done]
}

// The first bytes of a file, as many as the buffer has at most; a file that can't be opened has none, as one whose name isn't UTF-8.
pub fn load<'a, R: Files>(rt: &R, name: &[u8], buffer: &'a mut [u8]) -> &'a [u8]
    ensures { length result.now ≤ length buffer.old }
{
    let Ok(name) = str::from_utf8(name) else {
        return &[];
    };
    match fs::open(rt, name) {
        Ok(mut file) => read_full(&mut file, buffer),
        Err(_) => &[],
    }
}

// Prints the listing of three texts. Output that is lost is told on standard error; the program's exit status stays 0.
fn print_texts(rt: &(impl Print + Eprint), texts: Case<&[u8]>) {
    let mut out = [0u8; MAX_LISTING];
    let length = print_listing(texts.circuit, texts.rules, texts.sites, &mut out);
    if let Err(error) = rt.write_all(&out[..length]) {
        let _ = eprintln!(rt; "standard output can't be written: {error}");
    }
}

// Prints the listing for three files, or the line of the refusal (01, Marked examples, 1 and 2).
pub fn print_files(rt: &(impl Files + Print + Eprint), names: Case<&[u8]>) {
    let mut circuit = [0u8; MAX_FILE];
    let mut rules = [0u8; MAX_FILE];
    let mut sites = [0u8; MAX_FILE];
    let texts = Case {
        circuit: load(rt, names.circuit, &mut circuit),
        rules: load(rt, names.rules, &mut rules),
        sites: load(rt, names.sites, &mut sites),
    };
    print_texts(rt, texts);
}
