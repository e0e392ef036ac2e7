//! A run's record judged by the row of the run before.
ghost use Rattle.std.specs.Prelude.{◌≡◌, ◌-◌, ◌<◌, ◌≤◌, length};
ghost use Rattle.logic.specs.History.{History, high, earlier_run};
ghost use Rattle.logic.specs.Rows.{nos, row};
ghost use Rattle.stores.specs.Meaning.{record_at};
ghost use Rattle.meaning.specs.Kept.{Represents, low};
ghost use Rattle.meaning.specs.Walking.{Held, Turned, Writes};

use crate::access::{fetch, keep};
use crate::desk::Desk;
use records::{get_truths, has_truths, judge_record, set_truths};
use scales::Scale;
use stores::Store;

impl<K: Scale> Desk<'_, K> {
    /// Puts the row of the run before `run` in `previous`, or no for every line where there is none.
    pub(crate) fn row_before<S: Store>(&mut self, store: &S, run: u32)
        ensures before { (h : History) → Represents K.Scale.algebra self.old.rules.table.now self.old.rules.atoms (S.Store.meaning store.now) h → (1 < run → low h ≤ run - 1) → run - 1 ≤ high h →
            self.new.previous.now ≡ earlier_run (nos K.Scale.algebra self.old.rules.table.now) (row K.Scale.algebra self.old.rules.table.now h) run }
        ensures rules { self.new.rules ≡ self.old.rules }
    {
        let rec = &mut *self.rec;
        let previous = &mut *self.previous;
        if run < 2 {
            previous.fill(self.rules.scale.no());
        } else {
            fetch(store, run - 1, rec);
            get_truths(rec, self.rules.atoms, previous);
        }
    }

    /// Judges the record: its new row is in `row`, and in the record; whether its truths stay.
    pub(crate) fn judge(&mut self) -> bool
        ensures turned { Turned K.Scale.algebra self.old.rules.table.now self.old.rules.atoms self.old.rec.now self.old.previous.now self.new.row.now self.new.rec.now result }
        ensures rules { self.new.rules ≡ self.old.rules }
    {
        let rec = &mut *self.rec;
        let previous = &mut *self.previous;
        let row = &mut *self.row;
        judge_record(
            self.rules.scale,
            self.rules.table,
            self.rules.atoms,
            rec,
            previous,
            row,
        );
        let same = has_truths(rec, self.rules.atoms, row);
        set_truths(rec, self.rules.atoms, row);
        same
    }

    /// Reads a run's record and judges it; whether its truths stay.
    pub(crate) fn turn<S: Store>(&mut self, store: &S, run: u32) -> bool
        ensures turned { Held (S.Store.meaning store.now) (length self.old.rec.now) run →
            Turned K.Scale.algebra self.old.rules.table.now self.old.rules.atoms (record_at (S.Store.meaning store.now) run) self.old.previous.now self.new.row.now self.new.rec.now result }
        ensures rules { self.new.rules ≡ self.old.rules }
    {
        let rec = &mut *self.rec;
        fetch(store, run, rec);
        self.judge()
    }

    /// The row that was judged becomes that of the run before.
    pub(crate) fn pass_on(&mut self)
        ensures passed { self.new.previous.now ≡ self.old.row.now }
        ensures rec { self.new.rec.now ≡ self.old.rec.now }
        ensures rules { self.new.rules ≡ self.old.rules }
    {
        let previous = &mut *self.previous;
        let row = &mut *self.row;
        previous.copy_from_slice(row);
    }

    /// Writes the record as that of a run.
    pub(crate) fn keep<S: Store>(&self, store: &mut S, run: u32)
        ensures after { Writes (S.Store.meaning store.old) (S.Store.meaning store.new) (length self.now.rec.now) run self.now.rec.now }
        ensures same { S.Store.size store.new ≡ S.Store.size store.old }
    {
        keep(store, run, self.rec);
    }
}
