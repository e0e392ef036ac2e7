//! Where cases are printed.
use std::alloc::Global;
use std::io::{BufWriter, Write};

/// How many bytes are written in hexadecimal at a time.
const AT_ONCE: usize = 64;

/// What cases are printed to, and the heap that they take their memory from.
#[derive(Drop)]
pub struct Printer<W: Write + Drop> {
    pub(crate) out: BufWriter<W>,
    pub(crate) heap: Global,
}

impl<W: Write + Drop> Printer<W> {
    /// Prints the bytes in hexadecimal, part by part: a table may be as large as the heap.
    pub(crate) fn print_hex(&mut self, bytes: &[u8]) -> anyhow::Result<()> {
        let mut digits = [0; 2 * AT_ONCE];
        for part in bytes.chunks(AT_ONCE) {
            // no part is longer than that: `min` bounds what is sliced, with no proof by hand
            let n = part.len().min(AT_ONCE);
            let written = &mut digits[..2 * n];
            hex::encode_to_slice(&part[..n], written)?;
            self.out.write_all(written)?;
        }
        Ok(())
    }
}
