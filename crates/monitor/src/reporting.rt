//! A report, and what it would give.
ghost use Rattle.std.specs.Prelude.{◌≡◌, ◌≤◌, length, IfOk, OnOk};
ghost use Rattle.logic.specs.History.{History};
ghost use Rattle.meaning.specs.Kept.{Represents, meaning};
ghost use Rattle.meaning.specs.Reaching.{Reach, StoreReach};
ghost use Rattle.meaning.specs.Refusals.{report_refusal};
ghost use Rattle.meaning.specs.Calls.{unless, ask_report, reported, previewed, next};
ghost use Rattle.meaning.specs.Walking.{Looking};
ghost use Rattle.monitor.specs.Rooms.{Fits};

use crate::checks::{check_codes, read_open};
use crate::desk::Desk;
use crate::rules::Rules;
use meaning::BookFault;
use records::renew;
use scales::Scale;
use stores::Store;

impl<K: Scale> Desk<'_, K> {
    /// 22, 23, 20, 21; then `rec` is the run's record with its next state, and `previous` its new row.
    fn renewed_record<S: Store>(
        &mut self,
        store: &S,
        run: u32,
        codes: &[u8],
    ) -> Result<(), BookFault>
        ensures value { (h : History) → Represents K.Scale.algebra self.old.rules.table.now self.old.rules.atoms (S.Store.meaning store.now) h →
            result ≡ unless (report_refusal K.Scale.algebra self.old.rules.atoms h run codes.now) tt }
        ensures after { (h : History) → Represents K.Scale.algebra self.old.rules.table.now self.old.rules.atoms (S.Store.meaning store.now) h →
            OnOk result (Looking K.Scale.algebra self.old.rules.table.now self.old.rules.atoms (S.Store.meaning store.now) self.new.rec.now self.new.previous.now run h codes.now) }
        ensures rules { self.new.rules ≡ self.old.rules }
    {
        self.row_before(store, run);
        let rec = &mut *self.rec;
        read_open(store, run, rec)?;
        check_codes(self.rules.scale, self.rules.atoms, codes)?;
        renew(rec, self.rules.table.len(), codes);
        let _ = self.judge();
        self.pass_on();
        Ok(())
    }
}

/// The reach of the report and the rule's truth at the newest run after it.
///
/// Refuses by 22, 23, 20, 21, in this order; then the store is as it was.
// A pair of plain numbers is a named form.
pub fn report<K: Scale, S: Store>(
    rules: Rules<'_, K>,
    store: &mut S,
    rec: &mut [u8],
    previous: &mut [u8],
    row: &mut [u8],
    run: u32,
    codes: &[u8],
) -> Result<(u32, u8), BookFault>
    requires some { 1 ≤ length rules.table.now }
    requires fits { Fits rules rec.old previous.old row.old }
    ensures value { (h : History) → Represents K.Scale.algebra rules.entry.table.now rules.entry.atoms (S.Store.meaning store.old) h →
        result ≡ reported K.Scale.algebra rules.entry.table.now rules.entry.atoms (S.Store.meaning store.old).limit h run codes.now }
    ensures after { (h : History) → Represents K.Scale.algebra rules.entry.table.now rules.entry.atoms (S.Store.meaning store.old) h →
        S.Store.meaning store.new ≡ meaning K.Scale.algebra rules.entry.table.now rules.entry.atoms (S.Store.meaning store.old).limit (next K.Scale.algebra rules.entry.table.now rules.entry.atoms (S.Store.meaning store.old).limit h (ask_report run codes.now)) }
    ensures reach { (h : History) → Represents K.Scale.algebra rules.entry.table.now rules.entry.atoms (S.Store.meaning store.old) h →
        IfOk result (λ p. Reach K.Scale.algebra rules.entry.table.now h run codes.now p.0 × StoreReach (S.Store.meaning store.old) (S.Store.meaning store.new) run p.0) }
    ensures same { S.Store.size store.new ≡ S.Store.size store.old }
{
    let mut desk = Desk {
        rules,
        rec,
        previous,
        row,
    };
    desk.renewed_record(store, run, codes)?;
    desk.keep(store, run);
    let last = desk.walk(store, run);
    let truth = desk.rule_truth(store, last);
    Ok((last - run + 1, truth))
}

/// The verdict that the report would give.
///
/// Refuses as the report does.
pub fn preview<K: Scale, S: Store>(
    rules: Rules<'_, K>,
    store: &S,
    rec: &mut [u8],
    previous: &mut [u8],
    row: &mut [u8],
    run: u32,
    codes: &[u8],
) -> Result<u8, BookFault>
    requires some { 1 ≤ length rules.table.now }
    requires fits { Fits rules rec.old previous.old row.old }
    ensures value { (h : History) → Represents K.Scale.algebra rules.entry.table.now rules.entry.atoms (S.Store.meaning store.now) h →
        result ≡ previewed K.Scale.algebra rules.entry.table.now rules.entry.atoms (S.Store.meaning store.now).limit h run codes.now }
{
    let mut desk = Desk {
        rules,
        rec,
        previous,
        row,
    };
    desk.renewed_record(store, run, codes)?;
    let last = desk.look(store, run);
    let truth = desk.rule_truth(store, last);
    Ok(truth)
}
