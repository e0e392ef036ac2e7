//! What can be wrong with a text that the grammar reads.

/// Why a form has no table, with the length of its text.
#[derive(Clone, Copy, PartialEq, Eq, Debug)]
pub enum LineFault {
    /// It has over 128 lines.
    ManyLines(usize),
}
