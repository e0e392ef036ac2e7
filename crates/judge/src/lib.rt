//! Judging a row: the truths of all lines of a table at one run, in one pass, into a slice that is lent. What is
//! written is the row of the logic's first law, on any scale.
//!
//! Rests on scales, lines and logic. specs/Judging.antt says what the slice holds then, logic's specs/Rows.antt
//! what a line's truth comes from.
#![tactic(auto)]

ghost use Rattle.std.specs.Prelude.{◌≡◌, ℕ, slice_index_or};
ghost use Rattle.scales.specs.Algebra.{and};
ghost use Rattle.logic.specs.History.{History};
ghost use Rattle.logic.specs.Rows.{judged, row};
ghost use Rattle.judge.specs.Judging.{judged_into, Lent};

use lines::Line;
use scales::Scale;

/// The entry at `i`, or no past the end.
fn at<K: Scale>(scale: &K, xs: &[u8], i: usize) -> u8
    ensures value { result ≡ slice_index_or xs.now i K.Scale.algebra.no }
{
    xs.get(i).copied().unwrap_or_else(|| scale.no())
}

/// b or (a and earlier).
fn since<K: Scale>(scale: &K, a: u8, b: u8, earlier: u8) -> u8
    ensures value { result ≡ K.Scale.algebra.or b (and K.Scale.algebra a earlier) }
{
    scale.or(b, scale.and(a, earlier))
}

/// The truth of one line. `past` has the run's earlier row, `previous` the row of the run before, and `above` the
/// truths of the lines above in the run's own row; since reads its own place in the first two.
fn line_truth<K: Scale>(
    scale: &K,
    line: Line,
    state: &[u8],
    past: &[u8],
    previous: &[u8],
    above: &[u8],
) -> u8
    ensures value { result ≡ judged K.Scale.algebra state.now past.now previous.now above.now line }
{
    let own = above.len();
    match line {
        Line::Atom(i) => at(scale, state, i as usize),
        Line::No => scale.no(),
        Line::Yes => scale.yes(),
        Line::Not(i) => scale.not(at(scale, above, i as usize)),
        Line::Or(i, j) => scale.or(at(scale, above, i as usize), at(scale, above, j as usize)),
        Line::YL(i) => at(scale, past, i as usize),
        Line::SL(i, j) => since(
            scale,
            at(scale, above, i as usize),
            at(scale, above, j as usize),
            at(scale, past, own),
        ),
        Line::YG(i) => at(scale, previous, i as usize),
        Line::SG(i, j) => since(
            scale,
            at(scale, above, i as usize),
            at(scale, above, j as usize),
            at(scale, previous, own),
        ),
    }
}

/// Writes the row of a run to `out`, from the run's state, its earlier row and the row of the run before.
///
/// As many lines are judged as `out` has room for, and what lies behind them stays. Where what is lent comes
/// from a history, `out` has the run's row after that history.
pub fn judge_row<K: Scale>(
    scale: &K,
    table: &[Line],
    state: &[u8],
    past: &[u8],
    previous: &[u8],
    out: &mut [u8],
)
    ensures after { out.new ≡ judged_into K.Scale.algebra table.now state.now past.now previous.now out.old }
    ensures row { (n : ℕ) (h : History) (s : ℕ) → Lent K.Scale.algebra n table.now h s state.now past.now previous.now out.old →
        out.new ≡ row K.Scale.algebra table.now h s }
{
    let room = table.len().min(out.len());
    for (i, line) in table[..room].iter().enumerate() {
        // by its index, since each truth is judged from those above it in the same slice
        out[i] = line_truth(scale, *line, state, past, previous, &out[..i]);
    }
}
