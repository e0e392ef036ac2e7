//! The parts of the program's input.
ghost use Rattle.std.specs.Prelude.{◌≡◌, MatchOption, MatchResult};
ghost use Rattle.calls.specs.Input.{Lacks, CutAt, Cut, Uncut};
ghost use Rattle.calls.specs.declared.fault.ProgramFault.TheVariants.{NoPolicy};

use crate::fault::ProgramFault;

/// The most bytes that an input may have.
pub const MOST_INPUT: usize = 65_536;

/// What stands before the first `byte` of `bytes`, and what stands behind it.
pub fn cut_at(bytes: &[u8], byte: u8) -> Option<(&[u8], &[u8])>
    ensures { MatchOption result (Lacks byte bytes.now) (λ p. CutAt byte bytes.now p.0.now p.1.now) }
{
    let i = bytes.iter().position(|b| *b == byte)?;
    Some((&bytes[..i], &bytes[i + 1..]))
}

/// The policy text, which ends with the input's first full stop, and what comes behind it.
pub fn cut_input(input: &[u8]) -> Result<(&[u8], &[u8]), ProgramFault>
    ensures { MatchResult result (λ p. Cut input.now p.0.now p.1.now) (λ e. (e ≡ NoPolicy) × Uncut input.now) }
{
    if input.len() > MOST_INPUT {
        return Err(ProgramFault::NoPolicy);
    }
    let (words, rest) = cut_at(input, b'.').ok_or(ProgramFault::NoPolicy)?;
    Ok((&input[..words.len() + 1], rest))
}
