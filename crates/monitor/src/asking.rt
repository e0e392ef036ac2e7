//! The verdict, and the truth of a line at a run.
//!
//! Both take a record's room and no `Rules`: these would ask a caller for a scale and a table that they never read.
ghost use Rattle.std.specs.Prelude.{◌≡◌, ℕ, ◌+◌, ◌*◌, ◌≤◌, List, length};
ghost use Rattle.scales.specs.Algebra.{Algebra};
ghost use Rattle.lines.specs.declared.line.Line.{Line as Entry};
ghost use Rattle.logic.specs.History.{History};
ghost use Rattle.meaning.specs.Kept.{Represents};
ghost use Rattle.meaning.specs.Calls.{verdict_given, truth_given};

use crate::access::fetch;
use crate::checks::check_run;
use meaning::BookFault;
use records::truth_at;
use stores::Store;

/// The rule's truth at the newest run.
///
/// Refuses by 26.
pub fn verdict<S: Store>(
    atoms: usize,
    lines: usize,
    store: &S,
    rec: &mut [u8],
) -> Result<u8, BookFault>
    requires some { 1 ≤ lines }
    requires rec { length rec.old ≡ 1 + atoms + 2 * lines }
    ensures value { (K : Algebra) (ls : List Entry) (h : History) → Represents K ls atoms (S.Store.meaning store.now) h → length ls ≡ lines →
        result ≡ verdict_given K ls atoms (S.Store.meaning store.now).limit h }
{
    let newest = store.high();
    // 0 for no run, as a store answers
    if newest == 0 {
        return Err(BookFault::NoRuns);
    }
    fetch(store, newest, rec);
    Ok(truth_at(rec, atoms, lines, lines - 1))
}

/// The truth of a line at a run.
///
/// Refuses by 22, 27, 28, in this order.
pub fn truth<S: Store>(
    atoms: usize,
    lines: usize,
    store: &S,
    rec: &mut [u8],
    run: u32,
    line: u16,
) -> Result<u8, BookFault>
    requires { length rec.old ≡ 1 + atoms + 2 * lines }
    ensures value { (K : Algebra) (ls : List Entry) (h : History) → Represents K ls atoms (S.Store.meaning store.now) h → length ls ≡ lines →
        result ≡ truth_given K ls atoms (S.Store.meaning store.now).limit h run line }
{
    check_run(store.high(), run)?;
    if run < store.low() {
        return Err(BookFault::Gone(run));
    }
    if line as usize >= lines {
        return Err(BookFault::NoLine(line));
    }
    fetch(store, run, rec);
    Ok(truth_at(rec, atoms, lines, line as usize))
}
