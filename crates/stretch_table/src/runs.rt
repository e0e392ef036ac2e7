//! A run that gets an entry of its own, and entries that are as few as can be again.
ghost use Rattle.std.specs.Prelude.{◌≡◌, ℕ, ◌-◌, ◌<◌, ◌≤◌, ◌&&◌, List, length, nat_lt, slice_set};
ghost use Rattle.std.specs.Str.{bytes_eq};
ghost use Rattle.stretch_table.specs.Entries.{meaning_of, Kept, Isolated, Grouped};

use crate::entries::Entries;

impl Entries {
    ghost use Rattle.stretch_table.specs.Held.{entry_at, SameRoom};

    /// Cuts the entries so that the run has one of its own. The place of that.
    pub(crate) fn isolate(&mut self, run: u32) -> usize
        requires kept { Kept self.old.bounds self.old.used self.old.bytes.items }
        requires held { (self.old.bounds.low ≤ run) × (run ≤ self.old.bounds.high) }
        ensures within { result < self.new.used }
        ensures after { Isolated self.old.bounds (meaning_of self.old.bounds self.old.used self.old.bytes.items).records run result self.new.used self.new.bytes.items }
        ensures same { SameRoom self.old self.new }
    {
        let i = self.find(run);
        let at = self.cut(i, run);
        self.cut(at, run + 1);
        at
    }

    /// Replaces the record in the entry at place `at`, and joins that entry with its neighbours where they have the same.
    pub(crate) fn settle(&mut self, at: usize, rec: &[u8])
        requires within { at < self.old.used }
        requires long { length rec.now ≡ self.old.bounds.width }
        ensures after { (rs : List (List ℕ)) (run : ℕ) → length rs ≤ 1000000 → Isolated self.old.bounds rs run at self.old.used self.old.bytes.items → Grouped self.old.bounds (slice_set rs (run - self.old.bounds.low) rec.now) self.new.used self.new.bytes.items }
        ensures same { SameRoom self.old self.new }
    {
        self.set_record(at, rec);
        self.join(at);
        if at == 0 {
            return;
        }
        self.join(at - 1);
    }

    /// Whether the last entry has this record.
    pub(crate) fn ends_with(&self, rec: &[u8]) -> bool
        ensures value { result ≡ (nat_lt 0 self.now.used && bytes_eq (entry_at self.now (self.now.used - 1)).kept rec.now) }
    {
        self.used > 0 && self.record(self.used - 1) == rec
    }
}
