//! Making a stretch table, and its memory.
ghost use Rattle.std.specs.Prelude.{◌≡◌, length, replicate, Ok, Err, vec_len, MatchResult};
ghost use Rattle.stores.specs.Meaning.{empty};
ghost use Rattle.stores.specs.Making.{making};
ghost use Rattle.stretch_table.specs.Image.{image};
ghost use Rattle.stretch_store.specs.Table.{means, bytes_of};

use crate::table::StretchTable;
use stores::{StoreFault, limit_for};
use stretch_table::StretchRecords;

// A row table has look-alikes of these four, which stay with each table: crates/row_table/src/making.rt says why.
impl StretchTable {
    /// The limit that a table for records of `width` bytes has in `size` bytes of memory; an entry has 8 bytes more.
    ///
    /// Refuses by 12 where the width is not 4 to 289 or the limit would be below 2.
    pub fn limit_in(width: usize, size: usize) -> Result<usize, StoreFault>
        ensures value { result ≡ making width 8 size }
    {
        limit_for(width, 8, size)
    }

    /// An empty table in all of the memory, which is set to zero.
    ///
    /// Refuses where `limit_in` does, and hands the memory back as it was.
    pub fn new(memory: Vec<u8>, width: usize) -> Result<StretchTable, (StoreFault, Vec<u8>)>
        ensures value { MatchResult result
            (λ t. (making width 8 (vec_len memory) ≡ Ok (means t).limit) × (means t ≡ empty width (means t).limit) × (bytes_of t ≡ replicate (vec_len memory) 0))
            (λ e. (making width 8 (vec_len memory) ≡ Err e.0) × (e.1 ≡ memory)) }
    {
        // `map_err` and `?` would move the memory, which is needed behind them
        match StretchTable::limit_in(width, memory.len()) {
            Err(fault) => Err((fault, memory)),
            Ok(limit) => Ok(StretchTable {
                records: StretchRecords::new(memory, width, limit),
            }),
        }
    }

    /// Every byte of the memory.
    pub fn memory(&self) -> &[u8]
        ensures value { result.now ≡ image (means self.now) (length (bytes_of self.now)) }
    {
        self.records.memory()
    }

    /// The memory, handed back as it stands.
    pub fn into_memory(self) -> Vec<u8>
        ensures value { result.items ≡ image (means self) (length (bytes_of self)) }
    {
        self.records.into_memory()
    }
}
