//! What a read policy is.
ghost use Rattle.std.specs.Prelude.{◌≡◌, ◌≤◌, true, take};
ghost use Rattle.lines.specs.Stands.{well_formed};

use crate::table::Table;

/// A read policy: how many atoms it declares, 1 to 32, and the table of its lines, 1 to 128, of which the last is
/// the rule.
///
/// Invariant: each line names only lines above it and declared atoms.
#[derive(Clone, Copy)]
pub struct Policy {
    pub(crate) atoms: u8,
    pub(crate) table: Table,
    ghost named: { 1 ≤ atoms },
    ghost few: { atoms ≤ 32 },
    ghost lined: { 1 ≤ table.count },
    ghost short: { table.count ≤ 128 },
    ghost formed: { well_formed atoms 0 (take table.count table.kept) ≡ true },
}
