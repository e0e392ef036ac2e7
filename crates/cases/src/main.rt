//! Runs cases: each line of standard input is a case, and what comes of it is printed.
//!
//! ```text
//! text T                        a policy text: the policy that it is read into, or its refusal
//! table KIND W SIZE; CALL; ..   the calls of a row or stretch table: each answer, and the whole memory after it
//! book SCALE KIND SIZE T; CALL; ..  the calls of a book: each answer, and the whole memory of its store after it
//! input I                       an input of the program: its answers
//! ```
//!
//! Texts, inputs, records and codes are written in hexadecimal. The lines and what is expected of them are written by
//! tools/cases.py from the vectors of an independent model and from cases worked out by hand.
#![tactic(auto)]

use anyhow::anyhow;
use printer::Printer;
use std::io::{BufRead, BufReader, BufWriter, Read, Write};
use words::Words;

mod books;
mod inputs;
mod printer;
mod steps;
mod tables;
mod texts;
mod words;

/// The most bytes of standard input that are read.
const READ: u64 = 16_777_216;

/// Runs one case.
fn run_case<W: Write + Drop>(to: &mut Printer<W>, line: &str) -> anyhow::Result<()> {
    let mut words = Words::new(line.split(';').next().unwrap_or(""));
    // here and below: a word of the input says what is run, and a table of functions would name the same words
    match words.next() {
        "text" => texts::run(to, words),
        "table" => tables::run(to, words, line),
        "book" => books::run(to, words, line),
        "input" => inputs::run(to, words),
        _ => Err(anyhow!("no case")),
    }
}

fn main(rt: HostRuntime) -> anyhow::Result<()> {
    let mut to = Printer {
        out: BufWriter::new(rt.alloc(), rt.stdout())?,
        heap: rt.alloc(),
    };
    for line in BufReader::new(rt.alloc(), rt.stdin().take(READ))?.lines(rt.alloc()) {
        run_case(&mut to, line?.as_str())?;
    }
    to.out.flush()?;
    Ok(())
}
