//! What the reading of a rule works on.
use lines::Table;
use names::Names;
use signs::Reader;

/// The text that is read, the names declared in it and the lines written so far.
// That there is room for the numbers of lines is asked by those that read a rule, and is no ghost field: a parser is
// made of any text, before its length is checked, and reads the names first.
#[derive(Clone, Copy)]
pub struct Parser<'a> {
    pub reader: Reader<'a>,
    pub names: Names,
    pub table: Table,
}
