//! The interface of a scale.
ghost use Rattle.std.specs.Prelude.{◌≡◌};
ghost use Rattle.scales.specs.Algebra.{Algebra, Laws, and};

/// A scale (a truth-value algebra) over bytes. A code is a byte that is one of its truth values.
///
/// Codes are bytes and no enum: they lie in records and are handed in as they come, and each scale has its own.
pub trait Scale {
    ghost algebra: { Algebra };

    /// Whether `a` is a code.
    fn is_code(&self, a: u8) -> bool
        ensures value { result ≡ algebra.code a };

    fn no(&self) -> u8
        ensures value { result ≡ algebra.no };

    fn yes(&self) -> u8
        ensures value { result ≡ algebra.yes };

    /// No where `a` is no code.
    fn not(&self, a: u8) -> u8
        ensures value { result ≡ algebra.not a };

    /// No where a side is no code. The sides may not change places.
    fn or(&self, a: u8, b: u8) -> u8
        ensures value { result ≡ algebra.or a b };

    /// Whether `b` is as clear as `a`. Only codes are.
    fn is_as_clear(&self, b: u8, a: u8) -> bool
        ensures value { result ≡ algebra.clear b a };

    fn and(&self, a: u8, b: u8) -> u8
        ensures value { result ≡ and algebra a b }
    {
        self.not(self.or(self.not(a), self.not(b)))
    }

    ghost holds: { Laws algebra };
}
