//! The reader's state.
ghost use Rattle.std.specs.Prelude.{◌≤◌, length};

/// The text that was handed over, and the place up to which it has been read.
#[derive(Clone, Copy)]
pub struct Reader<'a> {
    pub(crate) text: &'a [u8],
    pub(crate) at: usize,
    ghost within: { at ≤ length text.now },
}
