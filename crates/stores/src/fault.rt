//! The type of a store's faults, without their numbers.

/// Why a store refuses a call, or cannot be made.
#[derive(Clone, Copy, PartialEq, Eq, Debug)]
pub enum StoreFault {
    /// The width is not 4 to 289, or the memory has no room for two records.
    Unfit,
    /// A record, or the room for one, of this length in place of the width.
    Length(usize),
    /// This run is not held.
    Run(u32),
    /// The last run number is taken.
    Last,
    /// As many records are held as this limit.
    Full(usize),
}
