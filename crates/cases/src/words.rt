//! The words of a case's head or of a call.
use readings::check_digits;
use std::alloc::Global;
use std::str::{FromStr, Split};

/// Words parted by blanks, one after the other; behind the last they are empty.
#[derive(Drop)]
pub(crate) struct Words<'a> {
    left: Split<'a, char>,
}

impl<'a> Words<'a> {
    pub(crate) fn new(text: &'a str) -> Words<'a> {
        Words {
            left: text.split(' '),
        }
    }

    pub(crate) fn next(&mut self) -> &'a str {
        self.left.next().unwrap_or("")
    }

    pub(crate) fn number<N: FromStr>(&mut self) -> Result<N, N::Err> {
        self.next().parse()
    }

    /// The bytes that the next word is in hexadecimal.
    pub(crate) fn bytes(&mut self, heap: Global) -> anyhow::Result<Vec<u8>> {
        let digits = self.next().as_bytes();
        check_digits(digits)?;
        let mut bytes = vec![in heap; 0; digits.len() / 2]?;
        hex::decode_to_slice(digits, &mut bytes)?;
        Ok(bytes)
    }
}
