//! The stretch table as a table of `stores`, and so as a store: its records take the steps.
ghost use Rattle.std.specs.Prelude.{length};
ghost use Rattle.stretch_store.specs.Table.{means, bytes_of};
ghost use Rattle.stretch_store.specs.Tables.{table_sound};

use crate::table::StretchTable;
use stores::{Bounds, Table};

impl Table for StretchTable {
    ghost meaning = { means };

    ghost size = { λ t. length (bytes_of t) };

    ghost sound = { table_sound };

    fn bounds(&self) -> Bounds {
        self.records.bounds()
    }

    fn copy_out(&self, run: u32, room: &mut [u8]) {
        self.records.copy_out(run, room);
    }

    fn replace(&mut self, run: u32, rec: &[u8]) {
        self.records.replace(run, rec);
    }

    fn add(&mut self, rec: &[u8]) {
        self.records.add(rec);
    }

    fn drop_below(&mut self, run: u32) {
        self.records.drop_below(run);
    }
}
