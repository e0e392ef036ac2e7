//! Entries that are cut and joined.
ghost use Rattle.std.specs.Prelude.{◌≡◌, ◌+◌, ◌-◌, ◌<◌, ◌≤◌, true, ◌&&◌, List, ◌∷◌, ◌++◌, length, if◌then◌else◌, nat_lt};
ghost use Rattle.stretch_table.specs.Stretches.{Stretch, inside, pieces, fused, Few};

use crate::entries::Entries;

/// Whether a stretch begins below a run and ends at it or above.
fn is_inside(first: u32, count: u32, run: u32) -> bool
    ensures value { result ≡ (nat_lt first run && nat_lt (run - first) count) }
    ensures below { result ≡ true → (first < run) × (run - first < count) }
{
    first < run && run - first < count
}

impl Entries {
    ghost use Rattle.stretch_table.specs.Held.{held, entry_at, HasRoom, SameRoom, Turns};

    /// Cuts the entry at place i before `run` if that is inside. The place behind the cut, or i where there is none.
    pub(crate) fn cut(&mut self, i: usize, run: u32) -> usize
        requires within { i < self.old.used }
        requires more { inside (entry_at self.old i) run ≡ true → HasRoom self.old }
        ensures value { result ≡ (if inside (entry_at self.old i) run then i + 1 else i) }
        ensures after { Turns self.old self.new i (λ e. pieces e run) }
        ensures same { SameRoom self.old self.new }
    {
        let first = self.first(i);
        let count = self.count(i);
        if !is_inside(first, count, run) {
            return i;
        }
        self.double(i);
        self.set_runs(i, first, run - first);
        self.set_runs(i + 1, run, count - (run - first));
        i + 1
    }

    /// Joins the entry at place i with the next if they have the same record.
    pub(crate) fn join(&mut self, i: usize)
        requires { i < self.old.used }
        ensures after { (A B : List Stretch) (e : Stretch) → held self.old ≡ A ++ (e ∷ B) → length A ≡ i → Few e B → held self.new ≡ A ++ fused e B }
        ensures bound { self.old.used ≤ self.new.used + 1 }
        ensures same { SameRoom self.old self.new }
    {
        if i + 1 == self.used {
            return;
        }
        if self.record(i) != self.record(i + 1) {
            return;
        }
        let first = self.first(i);
        // The sum is a number of runs, which is small in a table; the promise is of such stretches (`Few`).
        let count = self.count(i).saturating_add(self.count(i + 1));
        self.set_runs(i, first, count);
        self.remove(i + 1, i + 2);
    }
}
