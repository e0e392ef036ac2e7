//! The rules that a call judges by.
ghost use Rattle.std.specs.Prelude.{◌≡◌, true};
ghost use Rattle.lines.specs.Stands.{well_formed};

use lines::Line;

/// A scale, and a policy's lines over so many atoms.
///
/// Invariant: the lines are a table, each naming only lines above it and declared atoms.
#[derive(Drop)]
pub struct Rules<'a, K> {
    pub scale: &'a K,
    pub table: &'a [Line],
    pub atoms: usize,
    ghost formed: { well_formed atoms 0 table.now ≡ true },
}
