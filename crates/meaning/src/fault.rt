//! The type of a book's faults, without their numbers.
use stores::StoreFault;

/// Why a book refuses a call, or cannot be opened.
#[derive(Clone, Copy, PartialEq, Eq, Debug)]
pub enum BookFault {
    /// The store's records have this width, which is not the policy's.
    Width(usize),
    /// The store holds runs, of which this is the newest.
    Holding(u32),
    /// So many codes came in place of one for each atom.
    Count(usize),
    /// The byte at this index is no code.
    Code(usize),
    /// No run of this number has started.
    NoRun(u32),
    /// This run is closed.
    Closed(u32),
    /// No run has started yet.
    NoRuns,
    /// This run's record is gone.
    Gone(u32),
    /// The policy has no line of this number.
    NoLine(u16),
    /// What the store found.
    Store(StoreFault),
}
