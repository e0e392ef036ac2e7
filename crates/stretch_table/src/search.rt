//! The search for a run's entry.
ghost use Rattle.std.specs.Prelude.{◌≡◌, ◌+◌, ◌<◌, ◌≤◌};
ghost use Rattle.stretch_table.specs.Entries.{Kept};

use crate::entries::Entries;

impl Entries {
    ghost use Rattle.stretch_table.specs.Held.{entry_at};

    /// The place of the entry that has `run`; found by halving.
    ///
    /// By hand, since entries are bytes of memory that is handed over, and `partition_point` takes a slice of them.
    pub(crate) fn find(&self, run: u32) -> usize
        requires kept { Kept self.now.bounds self.now.used self.now.bytes.items }
        requires held { (self.now.bounds.low ≤ run) × (run ≤ self.now.bounds.high) }
        ensures within { result < self.now.used }
        ensures from { (entry_at self.now result).first ≤ run }
        ensures to { run < (entry_at self.now result).first + (entry_at self.now result).count }
    {
        let mut from = 0;
        let mut to = self.used;
        while from + 1 < to {
            let mid = from + (to - from) / 2;
            if self.first(mid) <= run {
                from = mid;
            } else {
                to = mid;
            }
        }
        from
    }
}
