//! The bytes of a name.
ghost use Rattle.std.specs.Prelude.{Some};
ghost use Rattle.readings.specs.Written.{word_written};

use std::fmt;

/// The bytes of a name, each as the character of its number.
#[derive(Clone, Copy)]
pub(crate) struct Word<'a>(pub(crate) &'a [u8]);

impl fmt::Display for Word<'_> {
    ghost output = { λ w. Some (word_written w.0.now) };

    fn fmt<W: fmt::Write>(&self, f: &mut fmt::Formatter<W>) -> fmt::Result {
        // a name of a text has no other bytes than ASCII, and is written whole
        if let (true, Ok(name)) = (self.0.is_ascii(), str::from_utf8(self.0)) {
            return f.write_str(name);
        }
        for b in self.0 {
            f.write_char(char::from(*b))?;
        }
        Ok(())
    }
}
