//! Runs policy texts: each line of standard input is a text in hexadecimal, and for each a line is printed, the
//! policy that it is or its refusal, in the form of `readings`.
//!
//! The inputs and what is expected of them are written by tools/text_cases.py.
#![tactic(auto)]

use readings::{AsRead, check_digits};
use std::alloc::Global;
use std::io::{BufRead, BufReader, BufWriter, Read, Write};

/// The most bytes of standard input that are read.
const READ: u64 = 4_194_304;

/// The bytes that are written in hexadecimal.
fn bytes_of(heap: Global, digits: &[u8]) -> anyhow::Result<Vec<u8>> {
    check_digits(digits)?;
    let mut bytes = vec![in heap; 0; digits.len() / 2]?;
    hex::decode_to_slice(digits, &mut bytes)?;
    Ok(bytes)
}

fn main(rt: HostRuntime) -> anyhow::Result<()> {
    let mut out = BufWriter::new(rt.alloc(), rt.stdout())?;
    for line in BufReader::new(rt.alloc(), rt.stdin().take(READ))?.lines(rt.alloc()) {
        let text = bytes_of(rt.alloc(), line?.as_bytes())?;
        writeln!(out, "{}", AsRead(text.as_slice()))?;
    }
    out.flush()?;
    Ok(())
}
