//! What a book is made of.
ghost use Rattle.std.specs.Prelude.{length};
ghost use Rattle.lines.specs.Policies.{lines_of};
ghost use Rattle.book.specs.Rooms.{Fits};

use lines::Policy;
use scales::Scale;
use stores::Store;

/// Room for one record and two rows: that of the run before, and the one that is judged.
// Three buffers, since the monitor is lent each as a slice.
#[derive(Drop)]
pub struct Room {
    pub rec: Vec<u8>,
    pub previous: Vec<u8>,
    pub row: Vec<u8>,
}

/// A book (a run-time monitor) of one policy, over the runs that its store holds.
///
/// Invariant: its room fits the policy.
#[derive(Drop)]
pub struct Book<K: Scale, S: Store> {
    pub(crate) policy: Policy,
    pub(crate) scale: K,
    pub(crate) store: S,
    pub(crate) room: Room,
    ghost fits: { Fits room policy.atoms (length (lines_of policy)) },
}
