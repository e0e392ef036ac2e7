//! The bytes of a run's record: taken apart, judged and renewed, in slices that are lent. Nothing is allocated.
//!
//! ```text
//! record of a run, W = 1 + A + 2·L bytes
//! +------+-----------------+----------------------+------------------------+
//! | open | present state A | truths now, L        | truths of the earlier  |
//! | 0/1  | one code an atom| one code a line      | state, L               |
//! +------+-----------------+----------------------+------------------------+
//! ```
//!
//! A record is its first byte and the rest, split by a slice pattern: a named form. Rests on `judge` and on the
//! definitions of `meaning`, whose specs/Records.antt names the parts.
//!
//! Records are plain slices and no struct with methods: there would have to be two, of a `&[u8]` and of a `&mut [u8]`,
//! each made anew from slice, atoms and lines at every call, and its one fact would be shown there as it is now.
#![tactic(auto)]

ghost use Rattle.std.specs.Prelude.{◌≡◌, ◌+◌, ◌*◌, ◌<◌, ◌∷◌, ◌++◌, length, replicate, Decides, slice_index, slice_set};
ghost use Rattle.logic.specs.Rows.{step};
ghost use Rattle.meaning.specs.Records.{state_of, truths_of, past_of, with_truths, renewed};
ghost use Rattle.meaning.specs.Walking.{is_open};

use judge::judge_row;
use lines::Line;
use scales::Scale;

/// Whether the record's run is open.
pub fn is_open(rec: &[u8]) -> bool
    ensures value { result ≡ is_open rec.now }
{
    match rec {
        [] => false,
        [flag, ..] => *flag == 1,
    }
}

// 0 or 1, and no enum: the first byte of a record is fixed.
fn set_flag(rec: &mut [u8], byte: u8)
    ensures after { rec.new ≡ slice_set rec.old 0 byte }
{
    match rec {
        [] => {}
        [flag, ..] => *flag = byte,
    }
}

/// Closes the record's run: its first byte is 0 then, and the rest stays.
pub fn close_record(rec: &mut [u8])
    ensures after { rec.new ≡ slice_set rec.old 0 0 }
{
    set_flag(rec, 0);
}

/// Writes the row that the record's state and earlier truths give, with the row of the run before, to `out`.
pub fn judge_record<K: Scale>(
    scale: &K,
    table: &[Line],
    atoms: usize,
    rec: &[u8],
    previous: &[u8],
    out: &mut [u8],
)
    requires out { length out.old ≡ length table.now }
    requires rec { length rec.now ≡ 1 + atoms + 2 * length table.now }
    ensures after { out.new ≡ step K.Scale.algebra table.now (state_of atoms rec.now) (past_of atoms (length table.now) rec.now) previous.now }
{
    match rec {
        [] => {}
        [_, rest @ ..] => {
            let state = &rest[0..atoms];
            let past = &rest[atoms + table.len()..];
            judge_row(scale, table, state, past, previous, out);
        }
    }
}

/// Whether the record's truths are these.
pub fn has_truths(rec: &[u8], atoms: usize, truths: &[u8]) -> bool
    requires { length rec.now ≡ 1 + atoms + 2 * length truths.now }
    ensures value { Decides result (truths.now ≡ truths_of atoms (length truths.now) rec.now) }
{
    match rec {
        [] => false,
        [_, rest @ ..] => {
            let kept = &rest[atoms..atoms + truths.len()];
            truths == kept
        }
    }
}

/// Puts these truths in the place of the record's.
pub fn set_truths(rec: &mut [u8], atoms: usize, truths: &[u8])
    requires { length rec.old ≡ 1 + atoms + 2 * length truths.now }
    ensures after { rec.new ≡ with_truths atoms truths.now rec.old }
{
    match rec {
        [] => {}
        [_, rest @ ..] => rest[atoms..atoms + truths.len()].copy_from_slice(truths),
    }
}

/// Copies the record's truths to `out`.
pub fn get_truths(rec: &[u8], atoms: usize, out: &mut [u8])
    requires { length rec.now ≡ 1 + atoms + 2 * length out.old }
    ensures after { out.new ≡ truths_of atoms (length out.old) rec.now }
{
    match rec {
        [] => {}
        [_, rest @ ..] => out.copy_from_slice(&rest[atoms..atoms + out.len()]),
    }
}

/// One of the record's truths, by its line.
pub fn truth_at(rec: &[u8], atoms: usize, lines: usize, line: usize) -> u8
    requires rec { length rec.now ≡ 1 + atoms + 2 * lines }
    requires line { line < lines }
    ensures value { result ≡ slice_index (truths_of atoms lines rec.now) line }
{
    match rec {
        [] => 0,
        [_, rest @ ..] => rest[atoms + line],
    }
}

/// Gives the record its next state: the truths so far become those of the earlier state.
pub fn renew(rec: &mut [u8], lines: usize, codes: &[u8])
    requires { length rec.old ≡ 1 + length codes.now + 2 * lines }
    ensures after { rec.new ≡ renewed lines codes.now rec.old }
{
    match rec {
        [] => {}
        [_, rest @ ..] => {
            let atoms = codes.len();
            rest.copy_within(atoms..atoms + lines, atoms + lines);
            rest[0..atoms].copy_from_slice(codes);
        }
    }
}

/// Makes the record that of a run with its first state, all truths no until it is judged.
pub fn lay(rec: &mut [u8], lines: usize, codes: &[u8], no: u8)
    requires { length rec.old ≡ 1 + length codes.now + 2 * lines }
    ensures after { rec.new ≡ 1 ∷ (codes.now ++ (replicate lines no ++ replicate lines no)) }
{
    match rec {
        [] => {}
        [_, rest @ ..] => {
            rest.fill(no);
            rest[0..codes.len()].copy_from_slice(codes);
        }
    }
    set_flag(rec, 1);
}
