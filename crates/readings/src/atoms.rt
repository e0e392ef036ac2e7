//! The atoms that a policy text declares.
ghost use Rattle.std.specs.Prelude.{Some};
ghost use Rattle.names.specs.Names.{names_of};
ghost use Rattle.readings.specs.Written.{atom_written, atoms_written};

use crate::word::Word;
use names::Names;
use rules::is_mark;
use signs::{Mark, Reader, Sign};
use std::fmt;

/// A name, and the number under which it is found.
#[derive(Clone, Copy)]
struct Atom<'a> {
    name: &'a [u8],
    number: Option<u8>,
}

impl fmt::Display for Atom<'_> {
    ghost output = { λ a. Some (atom_written a.name.now a.number) };

    fn fmt<W: fmt::Write>(&self, f: &mut fmt::Formatter<W>) -> fmt::Result {
        let name = Word(self.name);
        match self.number {
            Some(number) => write!(f, "{name}={number}"),
            None => write!(f, "{name} is not found"),
        }
    }
}

/// The atoms that a text declares up to its semicolon, a blank before each.
#[derive(Clone, Copy)]
pub(crate) struct Atoms<'a> {
    pub(crate) text: &'a [u8],
    pub(crate) names: Names,
}

impl fmt::Display for Atoms<'_> {
    ghost output = { λ a. Some (atoms_written a.text.now (names_of a.text.now a.names)) };

    fn fmt<W: fmt::Write>(&self, f: &mut fmt::Formatter<W>) -> fmt::Result {
        let mut reader = Reader::new(self.text);
        // a bound, since the reader never ends
        for _ in 0..self.text.len() {
            let Ok(placed) = reader.next() else {
                break;
            };
            if is_mark(placed.sign, Mark::Semicolon) {
                break;
            }
            if let Sign::Name(name) = placed.sign {
                let number = self.names.find(self.text, name);
                write!(f, " {}", Atom { name, number })?;
            }
        }
        Ok(())
    }
}
