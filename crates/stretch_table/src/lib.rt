//! Stretches of runs that have the same record (run-length coding), as entries in memory that is handed over.
//!
//! ```text
//! memory: the entries in the order of their runs, W + 8 bytes each, then zeros
//! +---------+---------+-- .. --+------------+-------+
//! | entry 0 | entry 1 |        | last entry | zeros |
//! +---------+---------+-- .. --+------------+-------+
//! ```
//!
//! Promises that the stretches of a list of records are the one way to group them, and what `stores` asks of each step of
//! a table. Every byte of the memory is the image of the records that it then means, which is part of the type
//! (specs/Image.antt, specs/Entries.antt). Rests on `refusals` and `stores`.
#![tactic(auto)]

ghost use Rattle.std.specs.Prelude.{◌≡◌};
ghost use Rattle.stretch_table.specs.Stretches.{Stand, Alone};

mod bytes;
mod entries;
mod making;
mod runs;
mod search;
mod splits;
mod table;

pub use table::StretchRecords;

/// That the stretches of a list of records are the one way to group them.
pub fn stretches_stand()
    ensures stand { Stand }
    ensures alone { Alone }
{}
