//! What a call is refused for.
ghost use Rattle.std.specs.Prelude.{◌≡◌, ℕ, List, length, OnOk};
ghost use Rattle.scales.specs.Algebra.{Algebra};
ghost use Rattle.lines.specs.declared.line.Line.{Line as Entry};
ghost use Rattle.logic.specs.History.{History};
ghost use Rattle.meaning.specs.Records.{record_of, width};
ghost use Rattle.meaning.specs.Kept.{Represents};
ghost use Rattle.meaning.specs.Refusals.{first_bad, codes_refusal, run_refusal, open_refusal};
ghost use Rattle.meaning.specs.Calls.{unless};

use crate::access::fetch;
use meaning::BookFault;
use records::is_open;
use scales::Scale;
use stores::Store;

/// 22: whether a run of this number has started, by the newest that has.
pub fn check_run(newest: u32, run: u32) -> Result<(), BookFault>
    ensures value { result ≡ unless (run_refusal newest run) tt }
{
    if run == 0 || run > newest {
        return Err(BookFault::NoRun(run));
    }
    Ok(())
}

/// 22, 23: reads the run's record, if it is open.
pub fn read_open<S: Store>(store: &S, run: u32, rec: &mut [u8]) -> Result<(), BookFault>
    ensures value { (K : Algebra) (ls : List Entry) (atoms : ℕ) (h : History) → Represents K ls atoms (S.Store.meaning store.now) h → length rec.old ≡ width atoms ls →
        result ≡ unless (open_refusal h run) tt }
    ensures after { (K : Algebra) (ls : List Entry) (atoms : ℕ) (h : History) → Represents K ls atoms (S.Store.meaning store.now) h → length rec.old ≡ width atoms ls →
        OnOk result (rec.new ≡ record_of K ls h run) }
{
    check_run(store.high(), run)?;
    if run < store.low() {
        return Err(BookFault::Closed(run));
    }
    fetch(store, run, rec);
    if !is_open(rec) {
        return Err(BookFault::Closed(run));
    }
    Ok(())
}

/// 21: the place of the first byte that the scale lacks.
// A loop with an index over the codes is a named form.
fn check_each<K: Scale>(scale: &K, codes: &[u8]) -> Result<(), BookFault>
    ensures value { result ≡ unless (first_bad K.Scale.algebra codes.now 0) tt }
{
    for (i, c) in codes.iter().enumerate() {
        if !scale.is_code(*c) {
            return Err(BookFault::Code(i));
        }
    }
    Ok(())
}

/// 20, 21: whether the codes are a state.
pub fn check_codes<K: Scale>(scale: &K, atoms: usize, codes: &[u8]) -> Result<(), BookFault>
    ensures value { result ≡ unless (codes_refusal K.Scale.algebra atoms codes.now) tt }
{
    if codes.len() != atoms {
        return Err(BookFault::Count(codes.len()));
    }
    check_each(scale, codes)
}
