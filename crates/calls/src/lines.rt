//! The state of a walk over lines.
ghost use Rattle.std.specs.Prelude.{◌+◌, ◌^◌, ◌<◌, length};

/// A walk over the lines of an input: what has not been walked, and how many lines were passed.
#[derive(Clone, Copy)]
pub struct Lines<'a> {
    pub(crate) rest: &'a [u8],
    pub(crate) passed: usize,
    ghost room: { passed + length rest.now < 2 ^ 64 },
}
