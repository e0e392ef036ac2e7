//! The slots of a ring in memory: where they lie, and the one of the oldest run.
ghost use Rattle.std.specs.Prelude.{◌≡◌, ◌+◌, ◌<◌, ◌≤◌, length};
ghost use Rattle.stores.specs.Bounds.{from_run};
ghost use Rattle.stores.specs.Meaning.{forgotten};
ghost use Rattle.row_table.specs.Image.{place};
ghost use Rattle.row_table.specs.Table.{means};

use crate::table::RowTable;

impl RowTable {
    /// Where the slot of a run begins.
    pub(crate) fn place_of(&self, run: u32) -> usize
        requires { 1 ≤ run }
        ensures value { result ≡ place self.now.bounds.width self.now.bounds.limit run }
        ensures inside { result + self.now.bounds.width ≤ length self.now.memory.items }
    {
        ((run - 1) as usize % self.bounds.limit) * self.bounds.width
    }

    /// Drops the oldest record of at least two, and zeroes its slot.
    pub(crate) fn drop_oldest(&mut self)
        requires { self.old.bounds.low < self.old.bounds.high }
        ensures bounds { self.new.bounds ≡ from_run self.old.bounds (self.old.bounds.low + 1) }
        ensures after { means self.new ≡ forgotten (means self.old) (self.old.bounds.low + 1) }
        ensures same { length self.new.memory.items ≡ length self.old.memory.items }
    {
        let at = self.place_of(self.bounds.low);
        self.memory[at..at + self.bounds.width].fill(0);
        self.bounds.low += 1;
    }
}
