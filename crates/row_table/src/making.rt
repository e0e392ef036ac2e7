//! Making a row table, and its memory.
ghost use Rattle.std.specs.Prelude.{◌≡◌, length, replicate, Ok, Err, vec_len, MatchResult};
ghost use Rattle.stores.specs.Meaning.{empty};
ghost use Rattle.stores.specs.Making.{making};
ghost use Rattle.row_table.specs.Image.{image};
ghost use Rattle.row_table.specs.Table.{means};

use crate::table::RowTable;
use stores::{Bounds, StoreFault, limit_for};

// A stretch table has look-alikes of these four. They stay with each table: their promises name its own fields and
// its own image, and a shared trait would have more lines than it saves.
impl RowTable {
    /// The limit that a table for records of `width` bytes has in `size` bytes of memory.
    ///
    /// Refuses by 12 where the width is not 4 to 289 or the limit would be below 2.
    pub fn limit_in(width: usize, size: usize) -> Result<usize, StoreFault>
        ensures value { result ≡ making width 0 size }
    {
        limit_for(width, 0, size)
    }

    /// An empty table in all of the memory, which is set to zero.
    ///
    /// Refuses where `limit_in` does, and hands the memory back as it was.
    pub fn new(mut memory: Vec<u8>, width: usize) -> Result<RowTable, (StoreFault, Vec<u8>)>
        ensures value { MatchResult result
            (λ t. (making width 0 (vec_len memory) ≡ Ok t.bounds.limit) × (means t ≡ empty width t.bounds.limit) × (t.memory.items ≡ replicate (vec_len memory) 0))
            (λ e. (making width 0 (vec_len memory) ≡ Err e.0) × (e.1 ≡ memory)) }
    {
        // `map_err` and `?` would move the memory, which is needed behind them
        let limit = match RowTable::limit_in(width, memory.len()) {
            Ok(limit) => limit,
            Err(fault) => return Err((fault, memory)),
        };
        memory.fill(0);
        let bounds = Bounds {
            width,
            limit,
            low: 1,
            high: 0,
        };
        Ok(RowTable { memory, bounds })
    }

    /// Every byte of the memory.
    pub fn memory(&self) -> &[u8]
        ensures value { result.now ≡ image (means self.now) (length self.now.memory.items) }
    {
        &self.memory
    }

    /// The memory, handed back as it stands.
    pub fn into_memory(self) -> Vec<u8>
        ensures value { result.items ≡ image (means self) (length self.memory.items) }
    {
        self.memory
    }
}
