//! A report's way up through the later runs, up to the first that does not move.
ghost use Rattle.std.specs.Prelude.{◌≡◌, ℕ, ◌+◌, ◌-◌, ◌≤◌, List, length, slice_index};
ghost use Rattle.logic.specs.History.{History};
ghost use Rattle.meaning.specs.Records.{truths_of};
ghost use Rattle.meaning.specs.Walking.{Begun, Done, Looking, Looked, Newest};

use crate::access::fetch;
use crate::desk::Desk;
use records::truth_at;
use scales::Scale;
use stores::Store;

impl<K: Scale> Desk<'_, K> {
    /// Judges the runs above `run`, whose new row is in `previous`, up to the first that stays, and writes those that
    /// move; gives the last that moved.
    pub(crate) fn walk<S: Store>(&mut self, store: &mut S, run: u32) -> u32
        ensures bound { (run ≤ result) × (result ≤ run + 999999) }
        ensures done { (limit : ℕ) (h : History) (q : List ℕ) → Begun K.Scale.algebra self.old.rules.table.now self.old.rules.atoms (S.Store.meaning store.old) self.old.rec.now self.old.previous.now run limit h q →
            Done K.Scale.algebra self.old.rules.table.now self.old.rules.atoms (S.Store.meaning store.new) self.new.rec.now run result limit h q }
        ensures same { S.Store.size store.new ≡ S.Store.size store.old }
        ensures rules { self.new.rules ≡ self.old.rules }
    {
        let newest = store.high();
        for last in run..newest {
            if self.turn(store, last + 1) {
                return last;
            }
            self.keep(store, last + 1);
            self.pass_on();
        }
        newest.max(run)
    }

    /// The same way without a write.
    // Two functions: one for both would take a trait with an impl for `&mut S` and one for `&S`, and half its contract
    // would speak of each. What they share is `turn` and `pass_on`.
    pub(crate) fn look<S: Store>(&mut self, store: &S, run: u32) -> u32
        ensures looked { (h : History) (q : List ℕ) → Looking K.Scale.algebra self.old.rules.table.now self.old.rules.atoms (S.Store.meaning store.now) self.old.rec.now self.old.previous.now run h q →
            Looked K.Scale.algebra self.old.rules.table.now self.new.rec.now run result h q }
        ensures rules { self.new.rules ≡ self.old.rules }
    {
        let newest = store.high();
        for last in run..newest {
            if self.turn(store, last + 1) {
                return last;
            }
            self.pass_on();
        }
        newest.max(run)
    }

    /// The rule's truth at the newest run, after a way up that ended at `last`. The record of that run is in `rec`
    /// unless it lies further up.
    pub(crate) fn rule_truth<S: Store>(&mut self, store: &S, last: u32) -> u8
        requires { 1 ≤ length self.old.rules.table.now }
        ensures value { (x : List ℕ) → Newest (S.Store.meaning store.now) (length self.old.rec.now) last self.old.rec.now x →
            result ≡ slice_index (truths_of self.old.rules.atoms (length self.old.rules.table.now) x) (length self.old.rules.table.now - 1) }
        ensures rules { self.new.rules ≡ self.old.rules }
    {
        let newest = store.high();
        let rec = &mut *self.rec;
        if newest.saturating_sub(last) > 1 {
            fetch(store, newest, rec);
        }
        let lines = self.rules.table.len();
        truth_at(rec, self.rules.atoms, lines, lines - 1)
    }
}
