//! The records of runs, kept in entries: every byte of the memory is the one that their meaning gives it.
ghost use Rattle.std.specs.Prelude.{length};
ghost use Rattle.stretch_table.specs.Entries.{Kept};

use crate::entries::Entries;
use stores::{Bounds, Table};

/// Records in memory that is handed over, one entry for each stretch of runs with the same record.
///
/// Invariant: there are as many entries as the records have stretches, and every byte of the memory is the one that its
/// meaning gives it; what lies behind the last entry is zero.
#[derive(Drop)]
pub struct StretchRecords {
    pub(crate) entries: Entries,
    ghost kept: { Kept entries.bounds entries.used entries.bytes.items },
}

impl Table for StretchRecords {
    ghost use Rattle.stretch_table.specs.Means.{means, means_sound, bytes_of};

    ghost meaning = { means };

    ghost size = { λ s. length (bytes_of s) };

    ghost sound = { means_sound };

    fn bounds(&self) -> Bounds {
        self.entries.bounds
    }

    fn copy_out(&self, run: u32, room: &mut [u8]) {
        let i = self.entries.find(run);
        room.copy_from_slice(self.entries.record(i));
    }

    fn replace(&mut self, run: u32, rec: &[u8]) {
        let at = self.entries.isolate(run);
        self.entries.settle(at, rec);
    }

    fn add(&mut self, rec: &[u8]) {
        let run = self.entries.bounds.high + 1;
        self.entries.bounds.high = run;
        if self.entries.ends_with(rec) {
            let last = self.entries.used - 1;
            let count = self.entries.count(last);
            self.entries.set_count(last, count + 1);
            return;
        }
        self.entries.push(run, rec);
    }

    fn drop_below(&mut self, run: u32) {
        let i = self.entries.find(run);
        let below = run - self.entries.first(i);
        let count = self.entries.count(i);
        self.entries.bounds.low = run;
        self.entries.set_runs(i, run, count - below);
        self.entries.remove(0, i);
    }
}
