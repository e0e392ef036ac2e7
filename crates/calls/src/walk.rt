//! The walk over the lines of an input.
ghost use Rattle.std.specs.Prelude.{◌≡◌, ℕ, ◌<◌, ◌∷◌, length};
ghost use Rattle.std.specs.Iterator.{YieldsFirstBy, item_count};
ghost use Rattle.calls.specs.Lines.{lines_of, numbered, lines_left, LinesLaw};

use crate::input::cut_at;
use crate::lines::Lines;

/// The first line, and what stands behind the byte that ends it.
fn first_line(bytes: &[u8]) -> (&[u8], &[u8])
    ensures value { (n : ℕ) → numbered n (lines_of bytes.now) ≡ numbered n (result.0.now ∷ lines_of result.1.now) }
    ensures shorter { 0 < length bytes.now → length result.1.now < length bytes.now }
{
    cut_at(bytes, b'\n').unwrap_or((bytes, &[]))
}

impl<'a> Lines<'a> {
    /// The walk from the first line of `input`, which has the number 1.
    pub fn new(input: &'a [u8]) -> Lines<'a>
        ensures { lines_left result ≡ numbered 1 (lines_of input.now) }
    {
        Lines {
            rest: input,
            passed: 0,
        }
    }
}

/// The lines that are not empty, each with its number.
impl<'a> Iterator for Lines<'a> {
    type Item = (usize, &'a [u8]);

    ghost next_gives = { YieldsFirstBy (λ p. (p.0, p.1.now)) lines_left };

    ghost remaining = { item_count lines_left };

    fn next(&mut self) -> Option<(usize, &'a [u8])> {
        while !self.rest.is_empty() {
            let (line, after) = first_line(self.rest);
            self.rest = after;
            self.passed += 1;
            if !line.is_empty() {
                return Some((self.passed, line));
            }
        }
        None
    }
}

/// That the lines of an input are just those that byte 10 joins to it.
pub fn lines_are_exact()
    ensures { LinesLaw }
{}
