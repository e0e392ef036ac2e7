//! What a call works with besides its store.
ghost use Rattle.monitor.specs.Rooms.{Fits};

use crate::rules::Rules;

/// The rules, and lent room for one record and two rows: that of the run before, and the one that is judged.
///
/// Invariant: the room fits the rules.
// Made inside the public calls, from slices lent to them. Four forms of a desk that the book makes were tried: a book
// that lends its own vectors into a desk knows nothing of their lengths afterwards.
#[derive(Drop)]
pub(crate) struct Desk<'a, K> {
    pub rules: Rules<'a, K>,
    pub rec: &'a mut [u8],
    pub previous: &'a mut [u8],
    pub row: &'a mut [u8],
    ghost fits: { Fits rules rec.now previous.now row.now },
}
