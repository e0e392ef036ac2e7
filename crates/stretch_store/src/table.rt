//! The stretch table as a type.

use stretch_table::StretchRecords;

/// A row store that keeps its records in one entry for each stretch of runs with the same record.
///
/// A type round those records: they are made only for a limit that has passed the test, which is made here.
#[derive(Drop)]
pub struct StretchTable {
    pub(crate) records: StretchRecords,
}
