//! What the program says, as text: an answer is written as one line, byte by byte.
//!
//! Rests on `refusals`. specs/Written.antt has the bytes.
#![tactic(auto)]

ghost use Rattle.std.specs.Prelude.{Some};
ghost use Rattle.answers.specs.Written.{written};

use std::fmt;

mod answer;

pub use answer::Answer;

impl fmt::Display for Answer {
    ghost output = { λ a. Some (written a) };

    fn fmt<W: fmt::Write>(&self, f: &mut fmt::Formatter<W>) -> fmt::Result {
        match *self {
            Answer::Policy { atoms, lines } => write!(f, "policy atoms {atoms} lines {lines}"),
            Answer::Run(run) => write!(f, "run {run}"),
            Answer::Changed { count, verdict } => write!(f, "changed {count} verdict {verdict}"),
            Answer::Would(verdict) => write!(f, "would {verdict}"),
            Answer::Closed { run, gone } => write!(f, "closed {run} gone {gone}"),
            Answer::Verdict(verdict) => write!(f, "verdict {verdict}"),
            Answer::Refused(refusal) => write!(f, "{refusal}"),
        }
    }
}
