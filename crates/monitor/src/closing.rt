//! A close.
ghost use Rattle.std.specs.Prelude.{◌≡◌, ℕ, ◌+◌, ◌-◌, ◌≤◌, List, ◌∷◌, length};
ghost use Rattle.scales.specs.Algebra.{Algebra};
ghost use Rattle.lines.specs.declared.line.Line.{Line as Entry};
ghost use Rattle.logic.specs.History.{History, high, close as closed_run};
ghost use Rattle.stores.specs.Meaning.{high_of, record_at};
ghost use Rattle.meaning.specs.Records.{record_of, width};
ghost use Rattle.meaning.specs.Kept.{lowest, low_by, low, keeping, meaning, Represents};
ghost use Rattle.meaning.specs.Calls.{ask_close, closed, next};
ghost use Rattle.meaning.specs.Walking.{is_open};

use crate::access::{fetch, keep};
use crate::checks::read_open;
use meaning::BookFault;
use records::{close_record, is_open};
use stores::Store;

/// The lowest run held that is open, if there is one.
fn lowest_open<S: Store>(store: &S, rec: &mut [u8]) -> Option<u32>
    ensures value { length rec.old ≡ (S.Store.meaning store.now).width →
        result ≡ lowest (λ j. is_open (record_at (S.Store.meaning store.now) j)) (S.Store.meaning store.now).low (high_of (S.Store.meaning store.now) + 1 - (S.Store.meaning store.now).low) }
{
    for run in store.low()..store.high() + 1 {
        fetch(store, run, rec);
        if is_open(rec) {
            return Some(run);
        }
    }
    None
}

/// The lowest run to keep, by the newest run and the lowest open one.
fn lowest_kept(newest: u32, open: Option<u32>) -> u32
    ensures value { result ≡ low_by newest «open» }
{
    match open {
        Some(run) => run.saturating_sub(1).max(1),
        None => newest.max(1),
    }
}

/// Drops the runs that no open run needs; how many.
fn forget_old<S: Store>(store: &mut S, rec: &mut [u8]) -> u32
    ensures value { (K : Algebra) (ls : List Entry) (atoms limit : ℕ) (h : History) (run : ℕ) → S.Store.meaning store.old ≡ keeping ls atoms limit h (record_of K ls (closed_run run ∷ h)) → 1 ≤ high h → length rec.old ≡ width atoms ls →
        result ≡ low (closed_run run ∷ h) - low h }
    ensures after { (K : Algebra) (ls : List Entry) (atoms limit : ℕ) (h : History) (run : ℕ) → S.Store.meaning store.old ≡ keeping ls atoms limit h (record_of K ls (closed_run run ∷ h)) → 1 ≤ high h → length rec.old ≡ width atoms ls →
        S.Store.meaning store.new ≡ meaning K ls atoms limit (closed_run run ∷ h) }
    ensures same { S.Store.size store.new ≡ S.Store.size store.old }
{
    let old = store.low();
    let low = lowest_kept(store.high(), lowest_open(store, rec));
    // Never refused: low is a run that is held.
    let _ = store.forget(low);
    low.saturating_sub(old)
}

/// How many runs are gone with the close.
///
/// Refuses by 22, 23, in this order; then the store is as it was.
// Takes a record's room and no `Rules`: these would ask a caller for a scale and a table that it never reads.
pub fn close<S: Store>(store: &mut S, rec: &mut [u8], run: u32) -> Result<u32, BookFault>
    ensures value { (K : Algebra) (ls : List Entry) (atoms : ℕ) (h : History) → Represents K ls atoms (S.Store.meaning store.old) h → length rec.old ≡ width atoms ls →
        result ≡ closed K ls atoms (S.Store.meaning store.old).limit h run }
    ensures after { (K : Algebra) (ls : List Entry) (atoms : ℕ) (h : History) → Represents K ls atoms (S.Store.meaning store.old) h → length rec.old ≡ width atoms ls →
        S.Store.meaning store.new ≡ meaning K ls atoms (S.Store.meaning store.old).limit (next K ls atoms (S.Store.meaning store.old).limit h (ask_close run)) }
    ensures same { S.Store.size store.new ≡ S.Store.size store.old }
{
    read_open(store, run, rec)?;
    close_record(rec);
    keep(store, run, rec);
    let gone = forget_old(store, rec);
    Ok(gone)
}
