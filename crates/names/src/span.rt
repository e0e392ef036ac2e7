//! Where a name stands in the text.

/// A part of the text: the place of its first byte and the place behind it.
#[derive(Clone, Copy)]
pub struct Span {
    pub from: usize,
    pub to: usize,
}
