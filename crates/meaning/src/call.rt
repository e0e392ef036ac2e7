//! The calls of a book, as values.

/// A call of a book. Codes are lent.
#[derive(Clone, Copy)]
pub enum Call<'a> {
    /// A new run with this first state.
    Start(&'a [u8]),
    /// A run's next state.
    Report(u32, &'a [u8]),
    /// What the report would give.
    Preview(u32, &'a [u8]),
    /// The end of a run.
    Close(u32),
    /// The rule's truth at the newest run.
    Verdict,
    /// A line's truth at a run.
    Truth(u32, u16),
}
