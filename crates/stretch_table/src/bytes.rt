//! Numbers in memory, and parts of it that are written and moved.
//!
//! All take a slice of bytes and a place in it: the memory is handed over, and a rule fixes each byte of it, so entries
//! can be no values of a type.
ghost use Rattle.std.specs.Prelude.{◌≡◌, ◌+◌, ◌-◌, ◌≤◌, ◌++◌, length, take, drop, replicate};
ghost use Rattle.std.proofs.Math.Seq.{paste};
ghost use Rattle.stretch_table.specs.Image.{four};
ghost use Rattle.stretch_table.specs.Entries.{number_at};

/// The number that four bytes write, the highest first.
pub(crate) fn number_at(m: &[u8], at: usize) -> u32
    requires { at + 4 ≤ length m.now }
    ensures value { result ≡ number_at m.now at }
{
    u32::from_be_bytes([m[at], m[at + 1], m[at + 2], m[at + 3]])
}

/// Writes `part` from `at` on.
pub(crate) fn put(m: &mut [u8], at: usize, part: &[u8])
    requires { at + length part.now ≤ length m.old }
    ensures after { m.new ≡ paste m.old at part.now (length part.now) }
{
    m[at..at + part.len()].copy_from_slice(part);
}

/// Writes a number in four bytes, the highest first.
pub(crate) fn put_number(m: &mut [u8], at: usize, n: u32)
    requires { at + 4 ≤ length m.old }
    ensures after { m.new ≡ paste m.old at (four n) 4 }
{
    put(m, at, &n.to_be_bytes());
}

/// Writes two numbers one behind the other.
pub(crate) fn put_numbers(m: &mut [u8], at: usize, first: u32, second: u32)
    requires { at + 8 ≤ length m.old }
    ensures after { m.new ≡ paste m.old at (four first ++ four second) 8 }
{
    put_number(m, at, first);
    put_number(m, at + 4, second);
}

/// Moves what lies from `from` to `end` down to `to`, and zeroes what it leaves behind.
pub(crate) fn shift_down(m: &mut [u8], to: usize, from: usize, end: usize)
    requires order { (to ≤ from) × (from ≤ end) }
    requires room { end ≤ length m.old }
    ensures after { m.new ≡ paste m.old to (take (end - from) (drop from m.old) ++ replicate (from - to) 0) (end - to) }
{
    m.copy_within(from..end, to);
    m[to + (end - from)..end].fill(0);
}
