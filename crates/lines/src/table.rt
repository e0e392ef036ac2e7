//! The room for a rule's lines.
ghost use Rattle.std.specs.Prelude.{◌≡◌, length};

use crate::MOST_LINES;
use crate::line::Line;

/// The lines of a rule so far: the first 128 of them, and how many there are. Lines that come later are
/// only counted, so that a text with too many is read to its end before it is refused.
// An array with a count beside it, and no ArrayVec: this counts past its room, needs no heap, and a policy is Copy.
#[derive(Clone, Copy)]
pub struct Table {
    pub(crate) kept: [Line; MOST_LINES as usize],
    pub(crate) count: u16,
    ghost room: { length kept ≡ 128 },
}
