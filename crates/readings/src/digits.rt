//! The hexadecimal that texts are handed over in.
ghost use Rattle.std.specs.Prelude.{◌≡◌, Some, codes};
ghost use Rattle.readings.specs.Digits.{digits_checked, fault_written};

use std::error::Error;
use std::fmt;

/// Why bytes are no hexadecimal.
#[derive(Clone, Copy, PartialEq, Eq, Debug)]
pub enum DigitFault {
    /// A byte of a pair is no digit.
    NoDigit,
    /// The last digit has no partner.
    OddCount,
}

impl fmt::Display for DigitFault {
    ghost output = { λ f. Some (fault_written f) };

    fn fmt<W: fmt::Write>(&self, f: &mut fmt::Formatter<W>) -> fmt::Result {
        match self {
            DigitFault::NoDigit => f.write_str("no hexadecimal digit"),
            DigitFault::OddCount => f.write_str("an odd number of digits"),
        }
    }
}

impl Error for DigitFault {}

/// Whether the bytes are pairs of the digits 0 to 9 and a to f; the library's `hex` takes capital ones too.
///
/// Pairs come first: a digit too many behind pairs that are none is not told.
pub fn check_digits(bytes: &[u8]) -> Result<(), DigitFault>
    ensures { result ≡ digits_checked bytes.now }
{
    let paired = bytes.len() - bytes.len() % 2;
    let mut all = true;
    // no way out at the first that is none: so the compiler tests many bytes at once
    for b in &bytes[..paired] {
        all &= matches!(*b, b'0'..=b'9' | b'a'..=b'f');
    }
    if !all {
        return Err(DigitFault::NoDigit);
    }
    if paired < bytes.len() {
        return Err(DigitFault::OddCount);
    }
    Ok(())
}
