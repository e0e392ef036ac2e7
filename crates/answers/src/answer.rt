//! The type of an answer, without its printed form.
use refusals::Refusal;

/// What the program answers to its policy text or to a call.
///
/// No twin of what a book answers: it has a policy's sizes and the run of a close, and no line's truth. A refusal is
/// a case of it, and no error of a `Result`: each answer is one line, and a `Result` has no printed form.
#[derive(Clone, Copy, PartialEq, Eq, Debug)]
pub enum Answer {
    /// The policy text was read.
    Policy { atoms: usize, lines: usize },
    /// This run was started.
    Run(u32),
    /// How many runs the report moved, itself included, and the verdict after it.
    Changed { count: u32, verdict: u8 },
    /// The verdict that the report would give.
    Would(u8),
    /// This run was closed, and how many runs are gone since.
    Closed { run: u32, gone: u32 },
    /// The rule's truth at the newest run.
    Verdict(u8),
    /// Nothing was done.
    Refused(Refusal),
}
