//! What every row store does.
ghost use Rattle.std.specs.Prelude.{◌≡◌, ℕ, length, is_ok, if◌then◌else◌};
ghost use Rattle.stores.specs.Meaning.{Meaning, Sound, high_of, record_at, written, appended, forgotten};
ghost use Rattle.stores.specs.Refusals.{answer, run_fault, record_fault, append_fault};

use crate::fault::StoreFault;

/// A row store: the records of the runs low to high, `width` bytes each, at most `limit` of them.
///
/// `meaning` is what it holds; `size` is how many bytes of memory it was handed, which no call changes.
/// Questions and refusals change nothing.
pub trait Store {
    ghost meaning: { Self → Meaning };

    ghost size: { Self → ℕ };

    /// How many bytes a record has.
    fn width(&self) -> usize
        ensures value { result ≡ (meaning self.now).width };

    /// How many records find place.
    fn limit(&self) -> usize
        ensures value { result ≡ (meaning self.now).limit };

    /// The oldest run held; 1 where there is none.
    // Numbers, and no `Option`: the rules of a store have 1 and 0 for no run.
    fn low(&self) -> u32
        ensures value { result ≡ (meaning self.now).low };

    /// The newest run held; 0 where there is none.
    fn high(&self) -> u32
        ensures value { result ≡ high_of (meaning self.now) };

    /// Copies a run's record into `room`.
    ///
    /// Refuses by 31, 30, in this order; then `room` is as it was.
    fn read(&self, run: u32, room: &mut [u8]) -> Result<(), StoreFault>
        ensures value { result ≡ answer (record_fault (meaning self.now) run (length room.old)) }
        ensures after { room.new ≡ (if is_ok result then record_at (meaning self.now) run else room.old) };

    /// Replaces a run's record.
    ///
    /// Refuses by 31, 30, in this order.
    fn write(&mut self, run: u32, rec: &[u8]) -> Result<(), StoreFault>
        ensures value { result ≡ answer (record_fault (meaning self.old) run (length rec.now)) }
        ensures after { meaning self.new ≡ (if is_ok result then written (meaning self.old) run rec.now else meaning self.old) }
        ensures same { size self.new ≡ size self.old };

    /// Adds a record for the run above the newest.
    ///
    /// Refuses by 31, 25, 24, in this order.
    fn append(&mut self, rec: &[u8]) -> Result<(), StoreFault>
        ensures value { result ≡ answer (append_fault (meaning self.old) (length rec.now)) }
        ensures after { meaning self.new ≡ (if is_ok result then appended (meaning self.old) rec.now else meaning self.old) }
        ensures same { size self.new ≡ size self.old };

    /// Drops the records of the runs below `run`, which is low then.
    ///
    /// Refuses by 30.
    fn forget(&mut self, run: u32) -> Result<(), StoreFault>
        ensures value { result ≡ answer (run_fault (meaning self.old) run) }
        ensures after { meaning self.new ≡ (if is_ok result then forgotten (meaning self.old) run else meaning self.old) }
        ensures same { size self.new ≡ size self.old };

    ghost sound: { (s : Self) → Sound (meaning s) };
}
