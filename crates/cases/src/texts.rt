//! Cases of policy texts.
use crate::printer::Printer;
use crate::words::Words;
use readings::AsRead;
use std::io::Write;

/// Runs a case: the text in hexadecimal.
pub(crate) fn run<W: Write + Drop>(
    to: &mut Printer<W>,
    mut words: Words<'_>,
) -> anyhow::Result<()> {
    let text = words.bytes(to.heap)?;
    writeln!(to.out, "{}", AsRead(text.as_slice()))?;
    Ok(())
}
