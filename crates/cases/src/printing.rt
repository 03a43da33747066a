// Answers as words.
use lines::Refusal;
use std::io;

// Prints `lines` and how many, or the refusal.
pub fn print_lines(rt: &impl Print, answer: Result<usize, Refusal>) -> io::Result<()> {
    match answer {
        Ok(lines) => print!(rt; " lines {lines}"),
        Err(refusal) => print!(rt; " {refusal}"),
    }
}
