//! What a policy text is read into, as one line: the policy with its atoms, each with the number under which it is
//! found, and with its lines in their order, or the refusal.
//!
//! A line of the table is printed as `a0` for an atom by its number, `no`, `yes`, `~0`, `YL0`, `YG0` for an operation
//! on one line, `0|1`, `0SL1`, `0SG1` for one on two. Rests on `text`. specs/Written.antt has the bytes. Also the test of
//! the hexadecimal that the programs with cases are handed (specs/Digits.antt).
#![tactic(auto)]

ghost use Rattle.std.specs.Prelude.{Some};
ghost use Rattle.readings.specs.Written.{written};

use crate::atoms::Atoms;
use crate::rows::Rows;
use refusals::Refusal;
use std::fmt;

mod atoms;
mod digits;
mod rows;
mod word;

pub use digits::{DigitFault, check_digits};

/// A policy text, printed as what it is read into.
#[derive(Clone, Copy)]
pub struct AsRead<'a>(pub &'a [u8]);

impl fmt::Display for AsRead<'_> {
    ghost output = { λ t. Some (written t.0.now) };

    fn fmt<W: fmt::Write>(&self, f: &mut fmt::Formatter<W>) -> fmt::Result {
        match text::read(self.0) {
            Ok(reading) => {
                let count = reading.policy.atoms();
                let atoms = Atoms {
                    text: self.0,
                    names: reading.names,
                };
                let lines = reading.policy.lines();
                let rows = Rows(lines);
                let length = lines.len();
                write!(f, "policy atoms {count}:{atoms} lines {length}:{rows}")
            }
            Err(fault) => write!(f, "{}", Refusal::from(fault)),
        }
    }
}
