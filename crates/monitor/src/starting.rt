//! A start.
ghost use Rattle.std.specs.Prelude.{◌≡◌, ◌+◌, if◌then◌else◌, ◌∷◌, length, is_ok};
ghost use Rattle.logic.specs.History.{History, high, start as started_with};
ghost use Rattle.stores.specs.Meaning.{appended};
ghost use Rattle.stores.specs.Refusals.{answer, append_fault};
ghost use Rattle.meaning.specs.Records.{record_of};
ghost use Rattle.meaning.specs.Kept.{Represents, meaning};
ghost use Rattle.meaning.specs.Calls.{ask_start, started, next};
ghost use Rattle.monitor.specs.Rooms.{Fits};

use crate::checks::check_codes;
use crate::desk::Desk;
use crate::rules::Rules;
use meaning::BookFault;
use records::lay;
use scales::Scale;
use stores::{Store, StoreFault};

impl<K: Scale> Desk<'_, K> {
    /// Makes `rec` the record of a new run with this first state.
    fn fresh_record<S: Store>(&mut self, store: &S, run: u32, codes: &[u8])
        requires { length codes.now ≡ self.old.rules.atoms }
        ensures fresh { (h : History) → Represents K.Scale.algebra self.old.rules.table.now self.old.rules.atoms (S.Store.meaning store.now) h → run ≡ high h + 1 →
            self.new.rec.now ≡ record_of K.Scale.algebra self.old.rules.table.now (started_with codes.now ∷ h) (high h + 1) }
        ensures rules { self.new.rules ≡ self.old.rules }
    {
        self.row_before(store, run);
        let lines = self.rules.table.len();
        let no = self.rules.scale.no();
        let rec = &mut *self.rec;
        lay(rec, lines, codes, no);
        let _ = self.judge();
    }

    fn append<S: Store>(&self, store: &mut S) -> Result<(), StoreFault>
        ensures value { result ≡ answer (append_fault (S.Store.meaning store.old) (length self.now.rec.now)) }
        ensures after { S.Store.meaning store.new ≡ (if is_ok result then appended (S.Store.meaning store.old) self.now.rec.now else S.Store.meaning store.old) }
        ensures same { S.Store.size store.new ≡ S.Store.size store.old }
    {
        store.append(self.rec)
    }
}

/// The number of the new run.
///
/// Refuses by 20, 21, and by what the store finds, 25, 24, in this order; then the store is as it was.
pub fn start<K: Scale, S: Store>(
    rules: Rules<'_, K>,
    store: &mut S,
    rec: &mut [u8],
    previous: &mut [u8],
    row: &mut [u8],
    codes: &[u8],
) -> Result<u32, BookFault>
    requires { Fits rules rec.old previous.old row.old }
    ensures value { (h : History) → Represents K.Scale.algebra rules.entry.table.now rules.entry.atoms (S.Store.meaning store.old) h →
        result ≡ started K.Scale.algebra rules.entry.table.now rules.entry.atoms (S.Store.meaning store.old).limit h codes.now }
    ensures after { (h : History) → Represents K.Scale.algebra rules.entry.table.now rules.entry.atoms (S.Store.meaning store.old) h →
        S.Store.meaning store.new ≡ meaning K.Scale.algebra rules.entry.table.now rules.entry.atoms (S.Store.meaning store.old).limit (next K.Scale.algebra rules.entry.table.now rules.entry.atoms (S.Store.meaning store.old).limit h (ask_start codes.now)) }
    ensures same { S.Store.size store.new ≡ S.Store.size store.old }
{
    check_codes(rules.scale, rules.atoms, codes)?;
    let run = store.high() + 1;
    let mut desk = Desk {
        rules,
        rec,
        previous,
        row,
    };
    desk.fresh_record(store, run, codes);
    desk.append(store)?;
    Ok(run)
}
