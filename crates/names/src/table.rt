//! The room for the names of a policy's atoms.
ghost use Rattle.std.specs.Prelude.{◌≡◌, ◌≤◌, length};

use crate::MOST_ATOMS;
use crate::span::Span;

/// The names of the atoms, in the order of their declaration, as parts of the text.
// An array with a count beside it, and no ArrayVec: a reading needs no heap, is plain data and is Copy.
#[derive(Clone, Copy)]
pub struct Names {
    pub(crate) spans: [Span; MOST_ATOMS as usize],
    pub(crate) count: u8,
    ghost room: { length spans ≡ 32 },
    ghost few: { count ≤ 32 },
}
