//! Cases of the program: an input, and the answers to it.
use crate::printer::Printer;
use crate::words::Words;
use console::{Room, respond};
use std::io::Write;

/// Runs a case: the input in hexadecimal.
pub(crate) fn run<W: Write + Drop>(
    to: &mut Printer<W>,
    mut words: Words<'_>,
) -> anyhow::Result<()> {
    let input = words.bytes(to.heap)?;
    let room = Room::new(to.heap)?;
    for answer in respond(room, input.as_slice()) {
        writeln!(to.out, "{answer}")?;
    }
    Ok(())
}
