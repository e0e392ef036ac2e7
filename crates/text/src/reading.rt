//! What a policy text is read into.
use lines::Policy;
use names::Names;

/// A read policy: the names of its atoms, as parts of its text, and the table of its lines.
#[derive(Clone, Copy)]
pub struct Reading {
    pub names: Names,
    pub policy: Policy,
}
