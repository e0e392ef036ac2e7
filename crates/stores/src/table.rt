//! Tables: how records lie in memory, and the store that each table is.
ghost use Rattle.std.specs.Prelude.{◌≡◌, ℕ, ◌<◌, ◌≤◌, length};
ghost use Rattle.stores.specs.Bounds.{bounds_of};
ghost use Rattle.stores.specs.Meaning.{Meaning, Sound, high_of, record_at, written, appended, forgotten};

use crate::bounds::Bounds;
use crate::fault::StoreFault;
use crate::store::Store;

/// A table: the steps of a store whose calls have passed their tests.
///
/// What has these steps is a store, and the tests are made once, for every table. A store that is no table
/// implements `Store` itself.
pub trait Table {
    ghost meaning: { Self → Meaning };

    ghost size: { Self → ℕ };

    /// The numbers of the table.
    fn bounds(&self) -> Bounds
        ensures value { bounds_of (meaning self.now) ≡ result };

    /// Copies the record of a run that is held into `room`.
    fn copy_out(&self, run: u32, room: &mut [u8])
        requires held { ((meaning self.now).low ≤ run) × (run ≤ high_of (meaning self.now)) }
        requires long { length room.old ≡ (meaning self.now).width }
        ensures after { room.new ≡ record_at (meaning self.now) run };

    /// Replaces the record of a run that is held.
    fn replace(&mut self, run: u32, rec: &[u8])
        requires held { ((meaning self.old).low ≤ run) × (run ≤ high_of (meaning self.old)) }
        requires long { length rec.now ≡ (meaning self.old).width }
        ensures after { meaning self.new ≡ written (meaning self.old) run rec.now }
        ensures same { size self.new ≡ size self.old };

    /// Adds a record behind those that are held, of which there are fewer than the limit.
    fn add(&mut self, rec: &[u8])
        requires last { high_of (meaning self.old) < 999999 }
        requires room { length (meaning self.old).records < (meaning self.old).limit }
        requires long { length rec.now ≡ (meaning self.old).width }
        ensures after { meaning self.new ≡ appended (meaning self.old) rec.now }
        ensures same { size self.new ≡ size self.old };

    /// Drops the records of the runs below one that is held.
    fn drop_below(&mut self, run: u32)
        requires held { ((meaning self.old).low ≤ run) × (run ≤ high_of (meaning self.old)) }
        ensures after { meaning self.new ≡ forgotten (meaning self.old) run }
        ensures same { size self.new ≡ size self.old };

    ghost sound: { (s : Self) → Sound (meaning s) };
}

impl<T: Table> Store for T {
    ghost meaning = { T.meaning };

    ghost size = { T.size };

    ghost sound = { T.sound };

    fn width(&self) -> usize {
        self.bounds().width
    }

    fn limit(&self) -> usize {
        self.bounds().limit
    }

    fn low(&self) -> u32 {
        self.bounds().low
    }

    fn high(&self) -> u32 {
        self.bounds().high
    }

    fn read(&self, run: u32, room: &mut [u8]) -> Result<(), StoreFault> {
        self.bounds().check_record(run, room.len())?;
        self.copy_out(run, room);
        Ok(())
    }

    fn write(&mut self, run: u32, rec: &[u8]) -> Result<(), StoreFault> {
        self.bounds().check_record(run, rec.len())?;
        self.replace(run, rec);
        Ok(())
    }

    fn append(&mut self, rec: &[u8]) -> Result<(), StoreFault> {
        self.bounds().check_append(rec.len())?;
        self.add(rec);
        Ok(())
    }

    fn forget(&mut self, run: u32) -> Result<(), StoreFault> {
        self.bounds().check_run(run)?;
        self.drop_below(run);
        Ok(())
    }
}
