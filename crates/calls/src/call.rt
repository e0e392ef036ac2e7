//! The calls that a line may spell.
ghost use Rattle.std.specs.Prelude.{◌≡◌, ℕ, List, take, MatchBool, MatchOption};
ghost use Rattle.std.specs.Str.Parse.{AllDigits};
ghost use Rattle.calls.specs.Spelling.{Codes, RunNumber, RunAndCodes, codes_of, Said, said, Spells, OneCall};

use crate::input::cut_at;

/// The most codes that a call may have.
pub const MOST_CODES: usize = 64;

/// Room for the codes of a call.
// An array: reading a call needs no heap.
pub type CodeRoom = [u8; MOST_CODES];

/// The most digits of a run number.
pub const MOST_RUN_DIGITS: usize = 6;

/// Codes as a line spells them: digits, each of which stands for the code of its value.
#[derive(Clone, Copy, PartialEq, Eq, Debug)]
pub struct CodeDigits<'a> {
    pub(crate) digits: &'a [u8],
}

/// What a line asks of the book.
///
/// No twin of `meaning::Call`: no line asks for a line's truth, and its codes are still digits.
#[derive(Clone, Copy, PartialEq, Eq, Debug)]
pub enum Call<'a> {
    /// `N codes` starts a run.
    Start(CodeDigits<'a>),
    /// `U run codes` reports a run's new state.
    Report(u32, CodeDigits<'a>),
    /// `P run codes` asks what that report would give.
    Preview(u32, CodeDigits<'a>),
    /// `E run` closes a run.
    Close(u32),
    /// `V` asks for the verdict.
    Verdict,
}

impl<'a> CodeDigits<'a> {
    /// The codes, written to the front of `room`: of a call that a line spells, all of them.
    pub fn codes<'b>(&self, room: &'b mut CodeRoom) -> &'b [u8]
        ensures { result.now ≡ take 64 (codes_of self.now) }
    {
        let count = MOST_CODES.min(self.digits.len());
        // one pass, and no copy of the digits that is then written over
        for (i, digit) in self.digits[..count].iter().enumerate() {
            room[i] = digit.saturating_sub(b'0');
        }
        &room[..count]
    }
}

fn is_digits(bytes: &[u8]) -> bool
    ensures { MatchBool result (AllDigits 10 bytes.now) (AllDigits 10 bytes.now → ⊥) }
{
    bytes.iter().all(u8::is_ascii_digit)
}

fn parse_codes(bytes: &[u8]) -> Option<CodeDigits<'_>>
    ensures { MatchOption result ((cs : List ℕ) → Codes bytes.now cs → ⊥) (λ d. Codes bytes.now (codes_of d)) }
{
    if bytes.is_empty() || bytes.len() > MOST_CODES || !is_digits(bytes) {
        return None;
    }
    Some(CodeDigits { digits: bytes })
}

fn parse_run(bytes: &[u8]) -> Option<u32>
    ensures { MatchOption result ((n : ℕ) → RunNumber bytes.now n → ⊥) (λ n. RunNumber bytes.now n) }
{
    if bytes.is_empty() || bytes.len() > MOST_RUN_DIGITS {
        return None;
    }
    // one pass, since each line of an input has a run; `parse` asks for a `str`, and takes a plus sign too
    let mut n = 0;
    for b in bytes {
        n = n * 10 + char::from(*b).to_digit(10)?;
    }
    Some(n)
}

fn parse_run_and_codes(bytes: &[u8]) -> Option<(u32, CodeDigits<'_>)>
    ensures { MatchOption result ((n : ℕ) (cs : List ℕ) → RunAndCodes bytes.now n cs → ⊥) (λ p. RunAndCodes bytes.now p.0 (codes_of p.1)) }
{
    let (number, digits) = cut_at(bytes, b' ')?;
    let run = parse_run(number)?;
    let codes = parse_codes(digits)?;
    Some((run, codes))
}

/// The call that `line` spells, if it spells one.
pub fn parse_call(line: &[u8]) -> Option<Call<'_>>
    ensures { MatchOption result ((s : Said) → Spells s line.now → ⊥) (λ c. Spells (said c) line.now) }
{
    match line {
        [b'V'] => Some(Call::Verdict),
        [b'N', b' ', rest @ ..] => Some(Call::Start(parse_codes(rest)?)),
        [b'U', b' ', rest @ ..] => {
            let (run, codes) = parse_run_and_codes(rest)?;
            Some(Call::Report(run, codes))
        }
        [b'P', b' ', rest @ ..] => {
            let (run, codes) = parse_run_and_codes(rest)?;
            Some(Call::Preview(run, codes))
        }
        [b'E', b' ', rest @ ..] => Some(Call::Close(parse_run(rest)?)),
        _ => None,
    }
}

/// That a line spells at most one call.
pub fn spelling_is_unique()
    ensures { OneCall }
{}
