//! The open scale: 0 for no, 1 for yes and 2 for unknown. Every code is as clear as unknown and as itself.
ghost use Rattle.scales.specs.Scales.{with_unknown};
ghost use Rattle.scales.specs.ScalesLemmas.{with_unknown_laws};

use crate::Scale;

#[derive(Clone, Copy)]
pub struct Open;

impl Scale for Open {
    ghost algebra = { with_unknown };

    ghost holds = { with_unknown_laws };

    fn is_code(&self, a: u8) -> bool {
        a < 3
    }

    fn no(&self) -> u8 {
        0
    }

    fn yes(&self) -> u8 {
        1
    }

    fn not(&self, a: u8) -> u8 {
        match a {
            0 => 1,
            2 => 2,
            _ => 0,
        }
    }

    fn or(&self, a: u8, b: u8) -> u8 {
        if a >= 3 || b >= 3 {
            0
        } else if a == 1 || b == 1 {
            1
        } else if a == 0 && b == 0 {
            0
        } else {
            2
        }
    }

    fn is_as_clear(&self, b: u8, a: u8) -> bool {
        b < 3 && (a == 2 || b == a)
    }
}
