//! The stretch table: a row store in memory that is handed over, one entry for each stretch of runs with the same record.
//!
//! ```text
//! memory: the entries in the order of their runs, W + 8 bytes each, then zeros
//! +---------+---------+-- .. --+------------+-------+
//! | entry 0 | entry 1 |        | last entry | zeros |   limit = size / (W + 8) runs, at most 4096
//! +---------+---------+-- .. --+------------+-------+
//!
//! entry
//! +------------------------+------------------------+-------------+
//! | first run              | number of runs         | record      |
//! | 4 bytes, highest first | 4 bytes, highest first | W bytes     |
//! +------------------------+------------------------+-------------+
//! ```
//!
//! The first entry begins at low, each next one behind the last run of the one before, and neighbours have different
//! records. So every byte is fixed by what the table means (Image.antt in the specs of `stretch_table`), at its making and
//! after every call: that is part of the type of its records.
//!
//! Rests on `stores`: it has the steps of a table there, and so is a store. `stretch_table` has the records, which take
//! those steps.
#![tactic(auto)]

mod making;
mod store;
mod table;

pub use table::StretchTable;
