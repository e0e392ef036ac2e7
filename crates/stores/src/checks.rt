//! The tests of a store's calls, for every store that keeps its numbers as `Bounds`.
ghost use Rattle.std.specs.Prelude.{◌≡◌, ◌+◌, ◌-◌, ◌<◌, ◌≤◌, OnOk, ◌≢◌};
ghost use Rattle.stores.specs.Bounds.{bounds_of};
ghost use Rattle.stores.specs.Meaning.{Meaning};
ghost use Rattle.stores.specs.Refusals.{answer, run_fault, record_fault, append_fault};

use crate::bounds::Bounds;
use crate::fault::StoreFault;

impl Bounds {
    /// How many records are held.
    pub fn count(self) -> usize
        ensures value { result ≡ self.high + 1 - self.low }
    {
        (self.high as usize + 1).saturating_sub(self.low as usize)
    }

    /// Whether a run is held: what `forget` tests.
    pub fn check_run(self, run: u32) -> Result<(), StoreFault>
        ensures value { (m : Meaning) → bounds_of m ≡ self → result ≡ answer (run_fault m run) }
        ensures made { OnOk result ((self.low ≤ run) × (run ≤ self.high)) }
    {
        if !(self.low..=self.high).contains(&run) {
            return Err(StoreFault::Run(run));
        }
        Ok(())
    }

    /// Whether a record, or the room for one, has the width, and the run is held: what `read` and `write` test.
    pub fn check_record(self, run: u32, len: usize) -> Result<(), StoreFault>
        ensures value { (m : Meaning) → bounds_of m ≡ self → result ≡ answer (record_fault m run len) }
        ensures made { OnOk result ((len ≡ self.width) × (self.low ≤ run) × (run ≤ self.high)) }
    {
        if len != self.width {
            return Err(StoreFault::Length(len));
        }
        self.check_run(run)
    }

    /// Whether a record has the width, and finds place behind those that are held: what `append` tests.
    pub fn check_append(self, bytes: usize) -> Result<(), StoreFault>
        ensures value { (m : Meaning) → bounds_of m ≡ self → 1 ≤ m.low → result ≡ answer (append_fault m bytes) }
        ensures made { OnOk result ((bytes ≡ self.width) × (self.high ≢ 999999) × (self.high + 1 - self.low ≢ self.limit)) }
    {
        if bytes != self.width {
            return Err(StoreFault::Length(bytes));
        }
        if self.high == 999_999 {
            return Err(StoreFault::Last);
        }
        if self.count() == self.limit {
            return Err(StoreFault::Full(self.limit));
        }
        Ok(())
    }
}
