//! The program: reads standard input, and prints what its policy text was read into, or the refusal.
//!
//! Its `main` is like that of `runbook_calls`, which is to take its place.
#![tactic(auto)]

use answers::Answer;
use calls::cut_input;
use refusals::Refusal;
use std::io;
use std::io::{BufWriter, Read, Write};

/// One byte more than an input may have, so that a longer one is noticed.
const READ: u64 = 65_537;

/// How many atoms and lines the policy has that the input's text is read into.
fn read_policy(input: &[u8]) -> Result<Answer, Refusal> {
    let (text, _rest) = cut_input(input)?;
    let policy = text::read(text)?.policy;
    let atoms = policy.atoms();
    let lines = policy.lines().len();
    Ok(Answer::Policy { atoms, lines })
}

fn main(rt: HostRuntime) -> io::Result<()> {
    let mut input = Vec::new(rt.alloc());
    rt.stdin().take(READ).read_to_end(&mut input)?;
    let mut out = BufWriter::new(rt.alloc(), rt.stdout())?;
    let answer = read_policy(input.as_slice()).unwrap_or_else(Answer::Refused);
    writeln!(out, "{answer}")?;
    out.flush()
}
