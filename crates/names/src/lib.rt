//! The names of a policy's atoms: at most 32, as parts of the text, in room that needs no heap.
//!
//! Rests on `signs` and `grammar`. specs/Names.antt says which names there are by a text; what a name may break
//! is the grammar's `name_limit`.
#![tactic(auto)]

ghost use Rattle.std.specs.Prelude.{◌≡◌, ℕ, ◌<◌, ◌≤◌, [], length};
ghost use Rattle.grammar.specs.Machine.{name_limit};
ghost use Rattle.names.specs.Names.{span_bytes, names_of, lookup, declared_answer, declared_names};

use grammar::GrammarFault;

mod span;
mod table;

pub use span::Span;
pub use table::Names;

/// The most atoms that a policy may declare.
pub const MOST_ATOMS: u8 = 32;

impl Span {
    /// The bytes of this part of the text; none, where it is no part.
    pub fn bytes<'a>(self, text: &'a [u8]) -> &'a [u8]
        ensures { result.now ≡ span_bytes text.now self }
    {
        text.get(self.from..self.to).unwrap_or(b"")
    }
}

impl Names {
    /// No names.
    pub fn new() -> Names
        ensures { result.count ≡ 0 }
    {
        Names {
            spans: [Span { from: 0, to: 0 }; MOST_ATOMS as usize],
            count: 0,
        }
    }

    /// How many names there are.
    pub fn count(&self) -> u8
        ensures { result ≡ self.now.count }
    {
        self.count
    }

    /// The number of the atom `word`, from 0 in the order of declaration.
    pub fn find(&self, text: &[u8], word: &[u8]) -> Option<u8>
        ensures { result ≡ lookup (names_of text.now self.now) word.now }
    {
        self.spans[..self.count as usize]
            .iter()
            .position(|span| span.bytes(text) == word)
            .map(|i| i as u8)
    }

    /// One atom more, whose name is this part of the text. It is refused if it is declared already or the 33rd;
    /// then nothing has changed.
    pub fn declare(&mut self, text: &[u8], name: Span) -> Result<(), GrammarFault>
        ensures value { result ≡ declared_answer (name_limit (names_of text.now self.old) (span_bytes text.now name) name.from) }
        ensures after { names_of text.now self.new ≡ declared_names (names_of text.now self.old) (span_bytes text.now name) (name_limit (names_of text.now self.old) (span_bytes text.now name) name.from) }
    {
        if self.find(text, name.bytes(text)).is_some() {
            return Err(GrammarFault::Repeated(name.from));
        }
        if self.count >= MOST_ATOMS {
            return Err(GrammarFault::ManyAtoms(name.from));
        }
        self.spans[self.count as usize] = name;
        self.count += 1;
        Ok(())
    }
}
