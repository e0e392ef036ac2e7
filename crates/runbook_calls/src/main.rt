//! The program with its calls: reads standard input, and prints what the console answers, a line each.
#![tactic(auto)]

use console::{Room, respond};
use std::io;
use std::io::{BufWriter, Read, Write};

/// One byte more than an input may have, so that a longer one is noticed.
const READ: u64 = 65_537;

fn main(rt: HostRuntime) -> io::Result<()> {
    let mut input = Vec::new(rt.alloc());
    rt.stdin().take(READ).read_to_end(&mut input)?;
    let room = Room::new(rt.alloc())?;
    let mut out = BufWriter::new(rt.alloc(), rt.stdout())?;
    for answer in respond(room, input.as_slice()) {
        writeln!(out, "{answer}")?;
    }
    out.flush()
}
