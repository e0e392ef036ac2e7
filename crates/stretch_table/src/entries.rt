//! Entries in memory: from the front, without gaps, each a first run, a number of runs and their record.
ghost use Rattle.std.specs.Prelude.{◌≡◌, ℕ, ◌+◌, ◌*◌, ◌<◌, ◌≤◌, true, List, [], ◌∷◌, ◌++◌, length};
ghost use Rattle.stores.specs.Bounds.{Sizes};
ghost use Rattle.stores.specs.Bytes.{are_bytes};
ghost use Rattle.stretch_table.specs.Image.{filled};
ghost use Rattle.stretch_table.specs.Stretches.{Stretch, stretch};
ghost use Rattle.stretch_table.specs.Entries.{stretches_in};

use crate::bytes::{number_at, put, put_number, put_numbers, shift_down};
use stores::Bounds;

/// Stretches in memory that is handed over, and the numbers of the table that they are of.
///
/// Invariant: `used` entries lie in the memory, and what lies behind them is zero.
///
/// A count stands beside the bytes, since the memory is handed over whole and never grows or shrinks.
#[derive(Drop)]
pub(crate) struct Entries {
    pub(crate) bytes: Vec<u8>,
    pub(crate) bounds: Bounds,
    pub(crate) used: usize,
    ghost sizes: { Sizes bounds },
    ghost values: { are_bytes bytes.items ≡ true },
    ghost fits: { used * (bounds.width + 8) ≤ length bytes.items },
    ghost rest: { bytes.items ≡ filled (stretches_in bounds.width used bytes.items) (length bytes.items) },
}

impl Entries {
    ghost use Rattle.stretch_table.specs.Held.{held, entry_at, HasRoom, SameRoom, Turns};

    /// Where the entry at place i begins.
    fn start(&self, i: usize) -> usize
        requires { i < self.now.used }
        ensures value { result ≡ i * (self.now.bounds.width + 8) }
        ensures room { result + (self.now.bounds.width + 8) ≤ length self.now.bytes.items }
    {
        i * (self.bounds.width + 8)
    }

    /// The first run of the entry at place i.
    pub(crate) fn first(&self, i: usize) -> u32
        requires { i < self.now.used }
        ensures value { result ≡ (entry_at self.now i).first }
    {
        number_at(&self.bytes, self.start(i))
    }

    /// How many runs the entry at place i has.
    pub(crate) fn count(&self, i: usize) -> u32
        requires { i < self.now.used }
        ensures value { result ≡ (entry_at self.now i).count }
    {
        number_at(&self.bytes, self.start(i) + 4)
    }

    /// The record of the entry at place i.
    pub(crate) fn record(&self, i: usize) -> &[u8]
        requires { i < self.now.used }
        ensures value { result.now ≡ (entry_at self.now i).kept }
        ensures len { length result.now ≡ self.now.bounds.width }
    {
        let at = self.start(i) + 8;
        &self.bytes[at..at + self.bounds.width]
    }

    /// Gives the entry at place i other runs.
    pub(crate) fn set_runs(&mut self, i: usize, first: u32, count: u32)
        requires { i < self.old.used }
        ensures after { Turns self.old self.new i (λ e. stretch first count e.kept ∷ []) }
        ensures used { self.new.used ≡ self.old.used }
        ensures same { SameRoom self.old self.new }
    {
        let at = self.start(i);
        put_numbers(&mut self.bytes, at, first, count);
    }

    /// Gives the entry at place i another number of runs, which writes four bytes.
    pub(crate) fn set_count(&mut self, i: usize, count: u32)
        requires { i < self.old.used }
        ensures after { Turns self.old self.new i (λ e. stretch e.first count e.kept ∷ []) }
        ensures used { self.new.used ≡ self.old.used }
        ensures same { SameRoom self.old self.new }
    {
        let at = self.start(i) + 4;
        put_number(&mut self.bytes, at, count);
    }

    /// Gives the entry at place i another record.
    pub(crate) fn set_record(&mut self, i: usize, rec: &[u8])
        requires within { i < self.old.used }
        requires long { length rec.now ≡ self.old.bounds.width }
        ensures after { Turns self.old self.new i (λ e. stretch e.first e.count rec.now ∷ []) }
        ensures used { self.new.used ≡ self.old.used }
        ensures same { SameRoom self.old self.new }
    {
        let at = self.start(i) + 8;
        put(&mut self.bytes, at, rec);
    }

    /// Puts the entry at place i there a second time, with those behind it one place up.
    pub(crate) fn double(&mut self, i: usize)
        requires within { i < self.old.used }
        requires room { HasRoom self.old }
        ensures after { Turns self.old self.new i (λ e. e ∷ e ∷ []) }
        ensures used { self.new.used ≡ self.old.used + 1 }
        ensures same { SameRoom self.old self.new }
    {
        let size = self.bounds.width + 8;
        let from = i * size;
        self.bytes.copy_within(from..self.used * size, from + size);
        self.used += 1;
    }

    /// Drops the entries from place `from` to `to`, and moves those behind them down.
    pub(crate) fn remove(&mut self, from: usize, to: usize)
        requires within { (from ≤ to) × (to ≤ self.old.used) }
        ensures after { (A O B : List Stretch) → held self.old ≡ A ++ (O ++ B) → length A ≡ from → length A + length O ≡ to → held self.new ≡ A ++ B }
        ensures used { self.new.used + to ≡ self.old.used + from }
        ensures same { SameRoom self.old self.new }
    {
        let size = self.bounds.width + 8;
        shift_down(&mut self.bytes, from * size, to * size, self.used * size);
        self.used -= to - from;
    }

    /// Adds an entry for one run behind those that there are.
    pub(crate) fn push(&mut self, run: u32, rec: &[u8])
        requires room { HasRoom self.old }
        requires long { length rec.now ≡ self.old.bounds.width }
        ensures after { held self.new ≡ held self.old ++ (stretch run 1 rec.now ∷ []) }
        ensures used { self.new.used ≡ self.old.used + 1 }
        ensures same { SameRoom self.old self.new }
    {
        let i = self.used;
        self.used += 1;
        self.set_runs(i, run, 1);
        self.set_record(i, rec);
    }
}
