//! What a book answers, as a value.

/// The answer of a book to a call that it accepts.
#[derive(Clone, Copy, PartialEq, Eq, Debug)]
pub enum Answer {
    /// To a start: the new run's number.
    Started(u32),
    /// To a report: its reach, and the verdict after it.
    Changed(u32, u8),
    /// To a preview: the verdict that the report would give.
    Would(u8),
    /// To a close: how many runs are gone with it.
    Closed(u32),
    /// The rule's truth at the newest run.
    Verdict(u8),
    /// A line's truth at a run.
    Truth(u8),
}
