//! The plain scale: 0 for no and 1 for yes, and a code is as clear only as itself.
ghost use Rattle.scales.specs.Scales.{plain};
ghost use Rattle.scales.specs.ScalesLemmas.{plain_laws};

use crate::Scale;

#[derive(Clone, Copy)]
pub struct Plain;

impl Scale for Plain {
    ghost algebra = { plain };

    ghost holds = { plain_laws };

    fn is_code(&self, a: u8) -> bool {
        a < 2
    }

    fn no(&self) -> u8 {
        0
    }

    fn yes(&self) -> u8 {
        1
    }

    fn not(&self, a: u8) -> u8 {
        u8::from(a == 0)
    }

    fn or(&self, a: u8, b: u8) -> u8 {
        u8::from(a < 2 && b < 2 && (a == 1 || b == 1))
    }

    fn is_as_clear(&self, b: u8, a: u8) -> bool {
        b < 2 && b == a
    }
}
