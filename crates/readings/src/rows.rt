//! The lines of a policy's table.
ghost use Rattle.std.specs.Prelude.{Some};
ghost use Rattle.readings.specs.Written.{row_written, rows_written};

use lines::Line;
use std::fmt;

/// One line of a table.
#[derive(Clone, Copy)]
struct Row(Line);

impl fmt::Display for Row {
    ghost output = { λ r. Some (row_written r.0) };

    fn fmt<W: fmt::Write>(&self, f: &mut fmt::Formatter<W>) -> fmt::Result {
        match self.0 {
            Line::Atom(i) => write!(f, "a{i}"),
            Line::No => write!(f, "no"),
            Line::Yes => write!(f, "yes"),
            Line::Not(k) => write!(f, "~{k}"),
            Line::Or(k, l) => write!(f, "{k}|{l}"),
            Line::YL(k) => write!(f, "YL{k}"),
            Line::SL(k, l) => write!(f, "{k}SL{l}"),
            Line::YG(k) => write!(f, "YG{k}"),
            Line::SG(k, l) => write!(f, "{k}SG{l}"),
        }
    }
}

/// The lines of a table, a blank before each.
#[derive(Clone, Copy)]
pub(crate) struct Rows<'a>(pub(crate) &'a [Line]);

impl fmt::Display for Rows<'_> {
    ghost output = { λ r. Some (rows_written r.0.now) };

    fn fmt<W: fmt::Write>(&self, f: &mut fmt::Formatter<W>) -> fmt::Result {
        for line in self.0 {
            write!(f, " {}", Row(*line))?;
        }
        Ok(())
    }
}
