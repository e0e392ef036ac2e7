//! A scale with two unknown codes, of which or keeps the left one.
ghost use Rattle.scale_cases.specs.Sided.{sided};
ghost use Rattle.std.specs.Prelude.{refl};
ghost use Rattle.std.proofs.Common.{lit≤};
ghost use Rattle.std.proofs.lemmas.Bool.{ltb-true};
ghost use Rattle.scales.specs.Tables.{laws_by_test};

use scales::Scale;

#[derive(Clone, Copy)]
pub struct Sided;

impl Scale for Sided {
    ghost algebra = { sided };

    ghost holds = { laws_by_test 4 (lit≤ tt) _ (λ a c. ltb-true a 4 c) refl };

    fn is_code(&self, a: u8) -> bool {
        a < 4
    }

    fn no(&self) -> u8 {
        0
    }

    fn yes(&self) -> u8 {
        1
    }

    fn not(&self, a: u8) -> u8 {
        match a {
            0 => 1,
            2 => 3,
            3 => 2,
            _ => 0,
        }
    }

    fn or(&self, a: u8, b: u8) -> u8 {
        if a >= 4 || b >= 4 {
            0
        } else if a == 1 || b == 1 {
            1
        } else if a == 0 {
            b
        } else {
            a
        }
    }

    fn is_as_clear(&self, b: u8, a: u8) -> bool {
        a < 4 && b < 4 && (a >= 2 || b == a)
    }
}
