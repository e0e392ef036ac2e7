//! How deep a part of the rule stands.
ghost use Rattle.std.specs.Prelude.{◌≤◌};

/// How many brackets and prefixes are open around a part of the rule, at most 32.
#[derive(Clone, Copy)]
pub struct Depth {
    pub(crate) count: u8,
    ghost few: { count ≤ 32 },
}
