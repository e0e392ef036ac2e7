//! The rule of a policy text: its form is read by one function for each rule of the grammar, and its lines are written
//! into a table as it is read. Nothing is allocated.
//!
//! Each function promises that the machine of `grammar` goes from where its part is due to where it is read, or which
//! refusal it comes to, and that the lines of the part's form were written (specs/Parts.antt). Rests on `signs`,
//! `lines`, `grammar` and `names`.
#![tactic(auto)]

ghost use Rattle.std.specs.Prelude.{◌≡◌, ◌≤◌};
ghost use Rattle.signs.specs.Signs.{kind_of};
ghost use Rattle.grammar.specs.Machine.{is_mark, prefix_of, since_of};
ghost use Rattle.rules.specs.Depths.{Deeper};

use grammar::GrammarFault;
use lines::{Infix, Prefix};
use signs::{Mark, Sign};

mod depth;
mod parser;
mod rule;

pub use depth::Depth;
pub use parser::Parser;

/// The most brackets and prefixes that may be open at once.
const MOST_OPEN: u8 = 32;

impl Depth {
    /// This many are open.
    pub fn new(count: u8) -> Depth
        requires { count ≤ 32 }
        ensures { result.count ≡ count }
    {
        Depth { count }
    }

    /// One deeper, behind the sign at `place`. The 33rd is refused.
    pub fn deeper(self, place: usize) -> Result<Depth, GrammarFault>
        ensures { Deeper self place result }
    {
        if self.count == MOST_OPEN {
            return Err(GrammarFault::TooDeep(place));
        }
        Ok(Depth {
            count: self.count + 1,
        })
    }
}

/// Whether the sign is this mark.
pub fn is_mark(sign: Sign<'_>, mark: Mark) -> bool
    ensures { result ≡ is_mark mark (kind_of sign.entry) }
{
    sign == Sign::Mark(mark)
}

/// The prefix that the sign is.
// No `TryFrom`: neither type is one of this crate.
fn prefix_of(sign: Sign<'_>) -> Option<Prefix>
    ensures { result ≡ prefix_of (kind_of sign.entry) }
{
    match sign {
        Sign::Mark(Mark::Not) => Some(Prefix::Not),
        Sign::Mark(Mark::YL) => Some(Prefix::YL),
        Sign::Mark(Mark::OL) => Some(Prefix::OL),
        Sign::Mark(Mark::HL) => Some(Prefix::HL),
        Sign::Mark(Mark::YG) => Some(Prefix::YG),
        Sign::Mark(Mark::OG) => Some(Prefix::OG),
        Sign::Mark(Mark::HG) => Some(Prefix::HG),
        _ => None,
    }
}

/// The since that the sign is.
fn since_of(sign: Sign<'_>) -> Option<Infix>
    ensures { result ≡ since_of (kind_of sign.entry) }
{
    match sign {
        Sign::Mark(Mark::SL) => Some(Infix::SL),
        Sign::Mark(Mark::SG) => Some(Infix::SG),
        _ => None,
    }
}
