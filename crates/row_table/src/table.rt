//! The row table as a type: its fields, and what always holds of them.
ghost use Rattle.row_table.specs.Image.{Kept};

use stores::Bounds;

/// Records in memory that is handed over, the record of run r in slot (r - 1) % limit.
///
/// Invariant: every byte of the memory is the one that its meaning gives it; a slot not in use is zero.
#[derive(Drop)]
pub struct RowTable {
    pub(crate) memory: Vec<u8>,
    pub(crate) bounds: Bounds,
    ghost kept: { Kept bounds memory.items },
}
