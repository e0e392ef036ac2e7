//! Why the program refuses, and the number, layer and place of it.
ghost use Rattle.std.specs.Prelude.{◌≡◌};
ghost use Rattle.calls.specs.Faults.{refusal_of};

use refusals::{Layer, Refusal};

/// Why the program refuses its input or a line of it.
#[derive(Clone, Copy, PartialEq, Eq, Debug)]
pub enum ProgramFault {
    /// The input has over 65,536 bytes, or no full stop.
    NoPolicy,
    /// The line of this number spells no call.
    NoCall(usize),
}

impl From<ProgramFault> for Refusal {
    ghost from_gives = { λ f r. r ≡ refusal_of f };

    fn from(f: ProgramFault) -> Refusal {
        match f {
            ProgramFault::NoPolicy => Refusal {
                number: 40,
                layer: Layer::Program,
                place: 0,
            },
            ProgramFault::NoCall(line) => Refusal {
                number: 41,
                layer: Layer::Program,
                place: line,
            },
        }
    }
}
