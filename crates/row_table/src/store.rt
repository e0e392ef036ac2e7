//! The row table as a table of `stores`, and so as a store.
ghost use Rattle.std.specs.Prelude.{length};
ghost use Rattle.row_table.specs.Table.{means};
ghost use Rattle.row_table.specs.Keeping.{sound};

use crate::table::RowTable;
use stores::{Bounds, Table};

impl Table for RowTable {
    ghost meaning = { means };

    ghost size = { λ t. length t.memory.items };

    ghost sound = { λ t. sound t.bounds t.memory.items t.kept };

    fn bounds(&self) -> Bounds {
        self.bounds
    }

    fn copy_out(&self, run: u32, room: &mut [u8]) {
        let from = self.place_of(run);
        room.copy_from_slice(&self.memory[from..from + self.bounds.width]);
    }

    fn replace(&mut self, run: u32, rec: &[u8]) {
        let at = self.place_of(run);
        self.memory[at..at + rec.len()].copy_from_slice(rec);
    }

    fn add(&mut self, rec: &[u8]) {
        let at = self.place_of(self.bounds.high + 1);
        self.memory[at..at + rec.len()].copy_from_slice(rec);
        self.bounds.high += 1;
    }

    fn drop_below(&mut self, run: u32) {
        for _ in self.bounds.low..run {
            self.drop_oldest();
        }
    }
}
